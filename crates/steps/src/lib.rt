// Steps of the expansion (`expand_rom_with_special_chars`) that ask the text and the rule table alone: they remember nothing.
#![tactic(auto)]

ghost use Rattle.std.specs.Prelude.{true, ◌∷◌, ◌++◌, reverse, ◌≡◌, ℕ, ◌+◌, ◌-◌, ◌/◌, ◌%◌, ◌<◌, ◌≤◌, take};
ghost use Rattle.base.specs.Bits.{flagged};
ghost use Rattle.definition.specs.Limits.{most_bytes, most_target};
ghost use Rattle.definition.specs.Texts.{the_space, stands, vowels, last_is};
ghost use Rattle.definition.specs.Notes.{note_exp};
ghost use Rattle.definition.specs.RuleRows.{rules_of};
ghost use Rattle.definition.specs.Expansion.{work, small_tsu, doubled, double, widen, around_by, around, before, trim, finish};
ghost use Rattle.rom.specs.Rom.{rom, held, Clean};
ghost use Rattle.words.specs.Given.{World, kinds, size_in, Lined};
ghost use Rattle.rule_choice.specs.Chosen.{chosen_means, Said};
ghost use Rattle.steps.specs.Works.{work_in, Held, outcome, Left, letter_of, framed_by, before_by, kana, long_by, front_of, back_of};

use rom::Rom;
use rule_choice::Target;
use words::Dicts;
use words::characters::{ADDAK, HIRAGANA_TSU, KATAKANA_TSU, LONG_MARK, SPACE};

// U+2013, which stands in a source between a vowel written before its consonant and what follows the consonant.
const EN_DASH: u32 = 0x2013;

// What the expansion makes: a romanization, its span, and its annotation, 0 while nothing was expanded. It stays beside
// `Growing`: the step at the public door gives its romanization by value (docs/DECISIONS.md, ticket 4), those inside don't.
#[derive(Clone, Copy)]
pub struct Work {
    pub rom: Rom,
    pub from: usize,
    pub to: usize,
    pub note: u8,
}

// The same while the steps are at it: the romanization is the first `len` bytes of one array, which is lent to each step. A
// length stands beside the array, and no slice of it, because a step makes the text longer or shorter where it stands.
#[derive(Clone, Copy)]
pub struct Growing {
    pub len: usize,
    pub from: usize,
    pub to: usize,
    pub note: u8,
}

// Small tsu, or addak.
#[tactic(auto, unfolding(definition::specs::Expansion::small_tsu, definition::specs::Texts::among))]
fn is_small_tsu(c: u32) -> bool
    ensures { result ≡ small_tsu c }
{
    matches!(c, HIRAGANA_TSU | KATAKANA_TSU | ADDAK)
}

// The letter that doubles the first one after the character `c`, if one does: ch is doubled by t, after addak by c.
fn doubling_letter(c: u32, text: &[u8]) -> Option<u8>
    ensures { letter_of result ≡ doubled c text.now }
{
    if rom::starts_with(text, b"ch") {
        return Some(if c == ADDAK { b'c' } else { b't' });
    }
    let letter = *text.first()?;
    if rom::is_in(rom::DOUBLING, letter as u32) {
        return Some(letter);
    }
    None
}

// A letter put in front, over the character before the span.
fn put_front(bytes: &mut [u8], letter: u8, g: Growing) -> Growing
    requires { Held bytes.old g × (g.len < most_bytes) × (0 < g.from) }
    ensures { (work_in bytes.new result ≡ work (letter ∷ take g.len bytes.old) (g.from - 1) g.to note_exp)
        × Held bytes.new result × (result.len ≡ g.len + 1) }
{
    let len = rom::put_front(bytes, g.len, letter);
    Growing {
        len,
        from: g.from - 1,
        note: edge::EXPANDED,
        ..g
    }
}

// Doubling by the character before `o`, where the span starts, if it is of the script of the one at `o`.
#[tactic(auto, using(crate::proofs::Letters::held_within, crate::proofs::Letters::held_long))]
pub fn doubling(line: &[u32], o: usize, bytes: &mut [u8], g: Growing) -> Growing
    requires { Held bytes.old g × (g.len < most_bytes) × (g.from ≡ o) × (o ≤ size_in line.now) }
    ensures { ((x : World) → Lined x line.now → work_in bytes.new result ≡ double (kinds x) x.text o (work_in bytes.old g))
        × Held bytes.new result × (result.len ≤ g.len + 1) × (result.from ≤ g.from) × (result.to ≡ g.to) }
{
    if o == 0 {
        return g;
    }
    let c = words::number_at(line, o);
    if is_small_tsu(c)
        && table_classes::script(words::kind_at(line, o))
            == table_classes::script(words::kind_at(line, o + 1))
    {
        if let Some(letter) = doubling_letter(c, &bytes[..g.len]) {
            return put_front(bytes, letter, g);
        }
    }
    g
}

// A target put behind, if there is one, over the character before the span and those after it up to `to`.
fn put_behind(
    rules: &[u8],
    target: Option<Target>,
    bytes: &mut [u8],
    g: Growing,
    to: usize,
) -> Option<Growing>
    requires { Said rules.now target × Held bytes.old g × (g.len + most_target ≤ most_bytes) × (0 < g.from) }
    ensures { ((k : ℕ) → to ≡ g.to + k
        → outcome bytes.new result ≡ widen k (work_in bytes.old g) (chosen_means rules.now target))
        × Left (g.len + most_target) bytes.old bytes.new result }
{
    if target.is_none() {
        return None;
    }
    let len = rom::put_behind(bytes, g.len, rule_choice::chosen_text(rules, target));
    Some(Growing {
        len,
        from: g.from - 1,
        to,
        note: edge::EXPANDED,
    })
}

// Is the span one character, spoken as consonants, after a character of class `kind` that is written before its consonant?
// A class is a packed number, as the lent line holds it.
#[tactic(auto, using(crate::proofs::Tries::consonants_all), unfolding(crate::specs::Works::framed_by))]
fn is_framed(kind: u32, text: &[u8], g: Growing) -> bool
    requires { g.from < g.to }
    ensures { result ≡ framed_by (flagged (kind / 1024) 6) (work text.now g.from g.to g.note) }
{
    g.from + 1 == g.to
        && rom::all_in(text, rom::CONSONANTS)
        && table_classes::class_flag(kind, table_classes::PRE)
}

// The first rule of the character before the span, an en dash and the `k` characters after the span, if there are so many.
fn around_by(dicts: &Dicts, line: &[u32], bytes: &mut [u8], g: Growing, k: usize) -> Option<Growing>
    requires { Held bytes.old g × (g.len + most_target ≤ most_bytes) × (0 < g.from) × (g.from ≤ size_in line.now) × (g.to ≤ size_in line.now) × (1 ≤ k) × (k ≤ 3) }
    ensures { ((x : World) → Lined x line.now
        → outcome bytes.new result ≡ around_by (rules_of dicts.now.rules.now) x.text k (work_in bytes.old g))
        × Left (g.len + most_target) bytes.old bytes.new result }
{
    let to = g.to;
    let end = to + k;
    if words::text_len(line) < end {
        return None;
    }
    let vowel = words::number_at(line, g.from);
    let one = words::number_at(line, to + 1);
    let two = words::number_at(line, to + 2);
    let three = words::number_at(line, to + 3);
    let source = [vowel, EN_DASH, one, two, three];
    let target = rule_choice::romanization_by_first_rule(dicts, &source[..k + 2]);
    put_behind(dicts.rules, target, bytes, g, end)
}

// Thai pattern: a vowel written around its consonant, the longest first. Written out, the three tries are the definition's;
// a loop over 3, 2 and 1 is no plainer.
#[tactic(auto, using(crate::proofs::Letters::held_within, crate::proofs::Letters::held_long))]
pub fn vowel_around(dicts: &Dicts, line: &[u32], bytes: &mut [u8], g: Growing) -> Option<Growing>
    requires { Held bytes.old g × (g.len + most_target ≤ most_bytes) × (g.from < g.to) × (g.to ≤ size_in line.now) }
    ensures { ((x : World) → Lined x line.now
        → outcome bytes.new result ≡ around (rules_of dicts.now.rules.now) (kinds x) x.text (work_in bytes.old g))
        × Left (g.len + most_target) bytes.old bytes.new result }
{
    let from = g.from;
    if from == 0 || !is_framed(words::kind_at(line, from), &bytes[..g.len], g) {
        return None;
    }
    if let Some(three) = around_by(dicts, line, bytes, g, 3) {
        return Some(three);
    }
    if let Some(two) = around_by(dicts, line, bytes, g, 2) {
        return Some(two);
    }
    around_by(dicts, line, bytes, g, 1)
}

// Is a character of class `kind` Thai and written before its consonant, and does a text start with one?
#[tactic(auto, using(crate::proofs::Tries::consonant_first), unfolding(crate::specs::Works::before_by))]
fn is_before(kind: u32, text: &[u8]) -> bool
    ensures { result ≡ before_by (kind / 8 % 128) (flagged (kind / 1024) 6) text.now }
{
    table_classes::script(kind) == table_classes::THAI
        && table_classes::class_flag(kind, table_classes::PRE)
        && rom::is_in(rom::CONSONANTS, base::byte(text, 0))
}

// Thai vowel that is written before its consonant and spoken behind it: what its first rule says is put behind.
#[tactic(auto, using(crate::proofs::Letters::held_within, crate::proofs::Letters::held_long))]
pub fn vowel_before(dicts: &Dicts, line: &[u32], bytes: &mut [u8], g: Growing) -> Growing
    requires { Held bytes.old g × (g.len + most_target ≤ most_bytes) × (g.from < g.to) × (g.to ≤ size_in line.now) }
    ensures { ((x : World) → Lined x line.now
        → work_in bytes.new result ≡ before (rules_of dicts.now.rules.now) (kinds x) x.text (work_in bytes.old g))
        × Held bytes.new result × (result.len ≤ g.len + most_target) × (result.from ≤ g.from) × (result.to ≡ g.to) }
{
    let from = g.from;
    if from == 0 || !is_before(words::kind_at(line, from), &bytes[..g.len]) {
        return g;
    }
    let vowel = words::number_at(line, from);
    let target = rule_choice::romanization_by_first_rule(dicts, &[vowel]);
    put_behind(dicts.rules, target, bytes, g, g.to).unwrap_or(g)
}

// Hiragana or katakana.
#[tactic(auto, unfolding(crate::specs::Works::kana))]
fn is_kana(script: u32) -> bool
    ensures { result ≡ kana script }
{
    matches!(script, table_classes::HIRAGANA | table_classes::KATAKANA)
}

// Does the character `c` lengthen a text: the long mark, after a kana and a vowel?
#[tactic(auto, using(crate::proofs::Letters::vowel_last), unfolding(crate::specs::Works::long_by))]
fn lengthens(c: u32, script: u32, text: &[u8]) -> bool
    ensures { result ≡ long_by c script text.now }
{
    c == LONG_MARK && is_kana(script) && rom::last_in(text, rom::VOWELS)
}

// The first `n` bytes without the space in front, where the character `c` before the span is one.
fn trim_front(bytes: &mut [u8], n: usize, c: u32) -> usize
    requires { Clean (held bytes.old n) }
    ensures { held bytes.new result ≡ rom (front_of c (take n bytes.old)) }
{
    if c == SPACE && 0 < n && bytes[0] == b' ' {
        return rom::keep(bytes, n, 1, n);
    }
    n
}

// The first `n` bytes without the space behind, where `there` is one after the span.
fn trim_back(bytes: &mut [u8], n: usize, there: bool) -> usize
    requires { Clean (held bytes.old n) }
    ensures { held bytes.new result ≡ rom (back_of there (take n bytes.old)) }
{
    if there && 0 < n && bytes[n - 1] == b' ' {
        return rom::keep(bytes, n, 0, n - 1);
    }
    n
}

// Does a space stand in the text at `p`? The end of the text is none.
fn is_space_at(line: &[u32], p: usize) -> bool
    ensures { (x : World) → Lined x line.now → result ≡ stands x.text p the_space }
{
    p < words::text_len(line) && words::number_at(line, p + 1) == SPACE
}

// One space at each side goes, where the text has one there; its front counts as one.
fn trim(line: &[u32], bytes: &mut [u8], g: Growing) -> Growing
    requires { Held bytes.old g × (g.from ≤ size_in line.now) }
    ensures { ((x : World) → Lined x line.now → work_in bytes.new result ≡ trim x.text (work_in bytes.old g))
        × Held bytes.new result × (result.len ≤ g.len) }
{
    let front = trim_front(bytes, g.len, words::number_at(line, g.from));
    let len = trim_back(bytes, front, is_space_at(line, g.to));
    Growing { len, ..g }
}

// The last letter once more, over the mark after the span, up to `to`.
fn lengthen(bytes: &mut [u8], g: Growing, to: usize) -> Growing
    requires { Held bytes.old g × (g.len < most_bytes) × (last_is vowels (take g.len bytes.old) ≡ true) }
    ensures { (work_in bytes.new result
        ≡ work (take g.len bytes.old ++ take 1 (reverse (take g.len bytes.old))) g.from to note_exp)
        × Held bytes.new result × (result.len ≡ g.len + 1) }
{
    let letter = bytes[g.len - 1];
    let len = rom::put_behind(bytes, g.len, &[letter]);
    Growing {
        len,
        to,
        note: edge::EXPANDED,
        ..g
    }
}

// What ends the expansion: a long mark that lengthens, or a virama, which is absorbed, or else spaces trimmed.
#[tactic(auto, using(crate::proofs::Letters::held_within, crate::proofs::Letters::held_long))]
pub fn ending(line: &[u32], bytes: &mut [u8], g: Growing) -> Growing
    requires { Held bytes.old g × (g.len < most_bytes) × (g.from < g.to) × (g.to ≤ size_in line.now) }
    ensures { ((x : World) → Lined x line.now → work_in bytes.new result ≡ finish (kinds x) x.text (work_in bytes.old g))
        × Held bytes.new result × (result.len ≤ g.len + 1) }
{
    let to = g.to;
    let at = to + 1;
    let script = table_classes::script(words::kind_at(line, to));
    if lengthens(words::number_at(line, at), script, &bytes[..g.len]) {
        return lengthen(bytes, g, at);
    }
    if table_classes::class_flag(words::kind_at(line, at), table_classes::VIRAMA) {
        return Growing {
            to: at,
            note: edge::EXPANDED,
            ..g
        };
    }
    trim(line, bytes, g)
}
