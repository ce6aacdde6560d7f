// The vowel step (add_default_abugida_vowel): a consonant of an abugida takes its script's vowel, keeps it or loses it.
#![tactic(auto)]

ghost use Rattle.std.specs.Prelude.{◌≡◌, not, ◌&&◌, ◌+◌, ◌/◌, ◌%◌, ◌<◌, ◌≤◌, eqb, length, get_or, take};
ghost use Rattle.std.proofs.Math.Seq.{slice};
ghost use Rattle.base.specs.Lists.{any};
ghost use Rattle.base.specs.Bits.{flagged};
ghost use Rattle.definition.specs.Limits.{most_target, most_vowel};
ghost use Rattle.definition.specs.Texts.{Text, khmer_yo, vowels};
ghost use Rattle.definition.specs.VowelRows.{vowels_of};
ghost use Rattle.definition.specs.Vowels.{bases, consonant_only, before_yo, bare, keeps_end, vowel_by, vowel_step};
ghost use Rattle.table_vowels.specs.Told.{FineVowels};
ghost use Rattle.rom.specs.Rom.{text, held, Clean};
ghost use Rattle.ends.specs.Shown.{Within, shown, form_means};
ghost use Rattle.ends.specs.Grew.{grew};
ghost use Rattle.words.specs.Given.{World, kinds, size_in, kind_in, Told, Lined};
ghost use Rattle.rule_choice.specs.Lent.{Answers, lexicon_of};
ghost use Rattle.vowel_step.specs.Ways.{keeping, silent, inside, settled};
ghost use Rattle.vowel_step.specs.Steps.{Voices, voiced};

use ends::{Forms, Which};
use rom::Rom;
use words::{Dicts, Span};

// U+1799, the Khmer yo.
const KHMER_YO: u32 = 0x1799;

// What the vowel step made: the romanization, and whether it only put vowels behind it.
#[derive(Clone, Copy)]
pub struct Voiced {
    pub rom: Rom,
    pub grown: bool,
}

// The languages that keep the romanization at a word's end, whatever the script.
#[tactic(auto, using(lent_bytes::specs::Library::same_texts), unfolding(crate::specs::Ways::keeping, base::specs::Lists::any))]
fn is_keeping(code: &[u8]) -> bool
    ensures { result ≡ keeping code.now }
{
    code == b"asm".as_slice()
        || code == b"ben".as_slice()
        || code == b"guj".as_slice()
        || code == b"kas".as_slice()
        || code == b"pan".as_slice()
}

// Does a language keep the romanization as it is at the end of a word? In Devanagari all but Sanskrit do.
#[tactic(auto, using(lent_bytes::specs::Library::same_texts), unfolding(crate::specs::Ways::keeping, definition::specs::Vowels::keeps_end))]
fn keeps_end(code: &[u8], script: u32) -> bool
    ensures { result ≡ keeps_end code.now script }
{
    script == table_classes::DEVANAGARI && code != b"san".as_slice() || is_keeping(code)
}

// A nonspacing mark, and a flag of the character behind it.
fn is_marked(kind: u32, next: u32, k: u32) -> bool
    requires { k < 8 }
    ensures { result ≡ (eqb (kind % 8) 2 && flagged (next / 1024) k) }
{
    table_classes::category(kind) == table_classes::NONSPACING && table_classes::class_flag(next, k)
}

// Is no vowel spoken before a character of this class, and the one behind it?
#[tactic(auto, unfolding(crate::specs::Ways::silent))]
fn is_silent(kind: u32, next: u32) -> bool
    ensures { result ≡ silent kind next }
{
    table_classes::class_flag(kind, table_classes::SIGN)
        || table_classes::class_flag(kind, table_classes::MEDIAL)
        || table_classes::class_flag(kind, table_classes::SUBJOINED)
        || is_marked(kind, next, table_classes::SIGN)
        || table_classes::class_flag(kind, table_classes::VIRAMA)
        || is_marked(kind, next, table_classes::VIRAMA)
}

// Does the Khmer yo follow a base that stays bare before it?
fn is_before_yo(line: &[u32], bytes: &[u8], from: usize, to: usize, e: usize) -> bool
    requires { (from ≤ to) × (to ≤ length bytes.now) × (e ≤ size_in line.now) }
    ensures { result ≡ (before_yo (slice from to bytes.now) && eqb (get_or line.now (e + 1) 0) khmer_yo) }
{
    ends::stays_before_yo(bytes, from, to) && words::number_at(line, e + 1) == KHMER_YO
}

// Is no vowel spoken before what follows at `e`?
fn is_bare(line: &[u32], bytes: &[u8], from: usize, to: usize, e: usize) -> bool
    requires { (from ≤ to) × (to ≤ length bytes.now) × (0 < e) × (e ≤ size_in line.now) }
    ensures { (w : World) → Lined w line.now → result ≡ bare (kinds w) w.text (slice from to bytes.now) e }
{
    is_before_yo(line, bytes, from, to, e)
        || is_silent(words::kind_at(line, e + 1), words::kind_at(line, e + 2))
}

// The script of the character at a place of the line.
fn script_at(line: &[u32], i: usize) -> u32
    requires { i ≤ length line.now / 2 }
    ensures { result ≡ kind_in line.now i / 8 % 128 }
{
    table_classes::script(words::kind_at(line, i))
}

// The form inside a word.
fn form_inside(line: &[u32], span: Span) -> Which
    requires { span.to ≤ size_in line.now }
    ensures { (w : World) → Lined w line.now → result ≡ inside (kinds w) w.text span.from span.to }
{
    let script = script_at(line, span.from + 1);
    if script_at(line, span.from) != script {
        return Which::Plus;
    }
    if table_classes::class_flag(words::kind_at(line, span.to), table_classes::VOCALIC) {
        return Which::Base;
    }
    if script_at(line, span.to + 1) == script {
        return Which::Plus;
    }
    Which::Rom
}

// The form once the start of word has not decided it. The end of word is the expensive question, and asked only here.
fn form_settled(dicts: &Dicts, line: &[u32], span: Span) -> Which
    requires { span.to ≤ size_in line.now }
    ensures { (w : World) → Told w dicts.now.ready.now → Lined w line.now
        → result ≡ settled (lexicon_of dicts.now.rules.now w dicts.now.code.now) w.text span.from span.to }
{
    if words::is_at_end_of_word(dicts, line, span.to) {
        if keeps_end(dicts.code, script_at(line, span.from + 1)) {
            return Which::Rom;
        }
        return Which::Plus;
    }
    form_inside(line, span)
}

// A base of consonants only takes a vowel, unless it is a tail.
fn takes_vowel(bytes: &[u8], from: usize, to: usize, tail: bool) -> bool
    requires { (from ≤ to) × (to ≤ length bytes.now) }
    ensures { result ≡ (consonant_only (slice from to bytes.now) && not tail) }
{
    ends::consonant_only(bytes, from, to) && !tail
}

// Does a word start here, with no vowel among the first `n` bytes?
fn starts_bare(start: bool, bytes: &[u8], n: usize) -> bool
    requires { n ≤ length bytes.now }
    ensures { result ≡ (start && not (any vowels (take n bytes.now))) }
{
    start && !ends::any_vowel(bytes, n)
}

// Which of the three forms, test by test in the file's order.
fn form(
    dicts: &Dicts,
    line: &[u32],
    places: &mut [u32],
    bytes: &[u8],
    f: Forms,
    tail: bool,
    span: Span,
) -> Which
    requires { Within (length bytes.now) f × (span.to ≤ size_in line.now) }
    ensures { (vowel : Text)
        → Answers dicts.now line.now places.old places.new
        (λ L t v. vowel_by L t v tail (shown bytes.now vowel f) span.from span.to) (form_means result (shown bytes.now vowel f)) }
{
    if !takes_vowel(bytes, f.from, f.to, tail) {
        return Which::Rom;
    }
    if is_bare(line, bytes, f.from, f.to, span.to) {
        return Which::Base;
    }
    if table_classes::class_flag(words::kind_at(line, span.from), table_classes::VIRAMA) {
        return Which::Plus;
    }
    let start = words::is_at_start_of_word(line, places, span.from);
    if starts_bare(start, bytes, f.rom) {
        return Which::Plus;
    }
    form_settled(dicts, line, span)
}

// Are vowels put behind, and nothing else?
fn is_grown(w: Which, f: Forms, letters: &[u8]) -> bool
    ensures { result ≡ grew w f letters.now }
{
    match w {
        Which::Rom | Which::Base => false,
        Which::Plus => f.add && rom::all_in(letters, rom::VOWELS),
    }
}

// The forms of a text, and the one that is chosen.
#[derive(Drop)]
struct Shape {
    forms: Forms,
    which: Which,
}

// The form by a script's vowel of type `ao`, chosen by positions.
fn shape_of(
    dicts: &Dicts,
    line: &[u32],
    places: &mut [u32],
    text: &[u8],
    ao: bool,
    tail: bool,
    span: Span,
) -> Shape
    requires { span.to ≤ size_in line.now }
    ensures { Within (length text.now) result.forms × ((vowel : Text)
        → Answers dicts.now line.now places.old places.new
        (λ L t e. vowel_by L t e tail (bases ao vowel text.now (eqb (span.from + 1) span.to)) span.from span.to)
        (form_means result.which (shown text.now vowel result.forms))) }
{
    let forms = ends::bases(text, ao, span.from + 1 == span.to);
    let which = form(dicts, line, places, text, forms, tail, span);
    Shape { forms, which }
}

// What the vowel step made in its place: so many bytes, and whether it only put vowels behind them. It stays beside `Voiced`,
// which gives the romanization by value at the public door (docs/DECISIONS.md, ticket 4).
#[derive(Drop)]
struct Grown {
    len: usize,
    grown: bool,
}

// The step on the first `n` bytes of an array, by the vowel row of the script of the span's first character; without one nothing
// changes.
fn put_vowel(
    dicts: &Dicts,
    line: &[u32],
    places: &mut [u32],
    bytes: &mut [u8],
    n: usize,
    tail: bool,
    span: Span,
) -> Grown
    requires { FineVowels dicts.now.vowels.now × Clean (held bytes.old n) × (n ≤ most_target) × (span.to ≤ size_in line.now) }
    ensures { Voices dicts.now line.now places.old places.new
        (λ L t e. vowel_step L t e (vowels_of dicts.now.vowels.now) tail (take n bytes.old) span.from span.to)
        (held bytes.old n) most_vowel (voiced bytes.new result) }
{
    let Some(row) = table_vowels::vowel_row(dicts.vowels, script_at(line, span.from + 1)) else {
        return Grown {
            len: n,
            grown: false,
        };
    };
    let letters = table_vowels::vowel_letters(dicts.vowels, row);
    let shape = shape_of(dicts, line, places, &bytes[..n], row.ao, tail, span);
    let which = shape.which;
    let len = ends::shape(bytes, n, shape.forms, which, letters);
    Grown {
        len,
        grown: is_grown(which, shape.forms, letters),
    }
}

// A romanization through the vowel step.
pub fn add_default_abugida_vowel(
    dicts: &Dicts,
    line: &[u32],
    places: &mut [u32],
    r: Rom,
    tail: bool,
    span: Span,
) -> Voiced
    requires { FineVowels dicts.now.vowels.now × Clean r × (r.len ≤ most_target) × (span.to ≤ size_in line.now) }
    ensures { Voices dicts.now line.now places.old places.new
        (λ L t e. vowel_step L t e (vowels_of dicts.now.vowels.now) tail (text r) span.from span.to) r most_vowel result }
{
    let mut bytes = r.bytes;
    let v = put_vowel(dicts, line, places, &mut bytes, r.len, tail, span);
    Voiced {
        rom: Rom { bytes, len: v.len },
        grown: v.grown,
    }
}
