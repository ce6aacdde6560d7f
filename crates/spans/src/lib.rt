// The edge of a span (`add_romanization`): what full search answers, through vowel step and expansion; and the text of
// a fallback (`get_fallback_rom_and_annot`), a part of the rule table or of the text itself.
#![tactic(auto)]

ghost use Rattle.std.specs.Prelude.{List, ◌++◌, ◌≡◌, ℕ, ◌+◌, ◌<◌, ◌≤◌, length, take, drop, replicate};
ghost use Rattle.definition.specs.Limits.{most_bytes, most_target, most_vowel};
ghost use Rattle.definition.specs.Texts.{Text};
ghost use Rattle.definition.specs.VowelRows.{vowels_of};
ghost use Rattle.definition.specs.Vowels.{vowel_step};
ghost use Rattle.definition.specs.Expansion.{work};
ghost use Rattle.definition.specs.Building.{is_tail, without_plus, grown, as_edge, edge_of, span_edge, fallback_plus};
ghost use Rattle.table_vowels.specs.Told.{FineVowels};
ghost use Rattle.rom.specs.Rom.{text, rom, Clean};
ghost use Rattle.words.specs.Given.{World, size_in, Lined};
ghost use Rattle.words.specs.Looks.{Looked};
ghost use Rattle.rule_choice.specs.Chosen.{chosen_means, Said};
ghost use Rattle.steps.specs.Works.{work_in, Held};
ghost use Rattle.vowel_step.specs.Steps.{Voices};
ghost use Rattle.plain.specs.Plain.{Voiceless};
ghost use Rattle.spans.specs.Spans.{Finds, edge_with, FindsEdge, found, Leaves, Expands, plus_dropped, fallback_bytes, category_note};

use edge::Numbers;
use rom::Rom;
use rule_choice::Target;
use steps::Growing;
use vowel_step::Voiced;
use words::{Dicts, Look, Span};

// The edge of a span: its numbers, and its text, which is the first `len` bytes of an array that is lent.
#[derive(Clone, Copy)]
pub struct Spanned {
    pub numbers: Numbers,
    pub len: usize,
}

// Is a target a tail: a plus and one byte, or a plus and two of which the first is n?
#[tactic(auto, unfolding(definition::specs::Building::is_tail, base::specs::Lists::head))]
fn is_tail(w: &[u8]) -> bool
    ensures { result ≡ is_tail w.now }
{
    matches!(w, [b'+', _] | [b'+', b'n', _])
}

// A text without its first byte.
fn without_first(w: &[u8]) -> &[u8]
    requires { 0 < length w.now }
    ensures { result.now ≡ drop 1 w.now }
{
    &w[1..]
}

// A tail loses its plus.
#[tactic(auto, using(crate::proofs::Tails::tail_not_empty, crate::proofs::Tails::behind_first), unfolding(definition::specs::Building::without_plus, base::specs::Pick::pick))]
fn without_plus(w: &[u8]) -> &[u8]
    ensures { result.now ≡ without_plus w.now }
{
    if is_tail(w) {
        return without_first(w);
    }
    w
}

// An edge's numbers: annotated by the expansion where that acted, else with a core where only vowels were added, as a
// tail, or as plain.
#[tactic(auto, unfolding(definition::specs::Building::as_edge, base::specs::Pick::pick))]
fn as_edge(tail: bool, core: usize, grows: bool, from: usize, to: usize, note: u8) -> Numbers
    requires { core < 256 }
    ensures { (rom new text : Text) → grows ≡ grown rom new → core ≡ length rom
        → edge_with result text ≡ as_edge tail rom new (work text from to note) }
{
    let numbers = Numbers {
        from,
        to,
        note,
        core: 0,
    };
    if note != edge::UNTOUCHED {
        numbers
    } else if grows {
        Numbers {
            note: edge::CORE,
            core: core as u8,
            ..numbers
        }
    } else if tail {
        Numbers {
            note: edge::TAIL,
            ..numbers
        }
    } else {
        Numbers {
            note: edge::ROM,
            ..numbers
        }
    }
}

// A text through the vowel step. It is not compiled into its caller, where its romanizations would take stack beside those of the
// expansion.
#[inline(never)]
fn voiced(
    dicts: &Dicts,
    line: &[u32],
    places: &mut [u32],
    w: &[u8],
    tail: bool,
    span: Span,
) -> Voiced
    requires { FineVowels dicts.now.vowels.now × (length w.now ≤ most_target) × (span.to ≤ size_in line.now) }
    ensures { Voices dicts.now line.now places.old places.new
        (λ L t e. vowel_step L t e (vowels_of dicts.now.vowels.now) tail w.now span.from span.to) (rom w.now) most_vowel result }
{
    vowel_step::add_default_abugida_vowel(dicts, line, places, rom::bytes_of(w), tail, span)
}

// The first `n` bytes of an array, copied to the front of what is lent: the zeros behind a romanization are there already. By a loop,
// as lent_bytes' `put_text` does.
fn put_first(room: &mut [u8], bytes: &[u8], n: usize)
    requires { (n ≤ length bytes.now) × (n ≤ length room.old) }
    ensures { room.new ≡ take n bytes.now ++ drop n room.old }
{
    for i in 0..n {
        room[i] = bytes[i];
    }
}

// A romanization through the expansion, and put into what is lent.
fn put_grown(
    dicts: &Dicts,
    line: &[u32],
    places: &mut [u32],
    r: Rom,
    span: Span,
    bytes: &mut [u8],
) -> Growing
    requires { Clean r × (r.len ≤ most_target + most_vowel) × (span.to ≤ size_in line.now) × (bytes.old ≡ replicate most_bytes 0) }
    ensures { Expands dicts.now.rules.now dicts.now.ready.now dicts.now.code.now line.now places.old places.new
        (text r) span (work_in bytes.new result) × Held bytes.new result }
{
    let x = expand::expand_rom_with_special_chars(
        words::choices_in(dicts.ready),
        dicts,
        line,
        places,
        r,
        span,
    );
    put_first(bytes, &x.rom.bytes, x.rom.len);
    Growing {
        len: x.rom.len,
        from: x.from,
        to: x.to,
        note: x.note,
    }
}

// The same, unless the expansion leaves it as it is.
fn put_expanded(
    dicts: &Dicts,
    line: &[u32],
    places: &mut [u32],
    r: Rom,
    span: Span,
    bytes: &mut [u8],
) -> Growing
    requires { Clean r × (r.len ≤ most_target + most_vowel) × (span.to ≤ size_in line.now) × (bytes.old ≡ replicate most_bytes 0) }
    ensures { Expands dicts.now.rules.now dicts.now.ready.now dicts.now.code.now line.now places.old places.new
        (text r) span (work_in bytes.new result) × Held bytes.new result }
{
    if plain::is_untouched(words::choices_in(dicts.ready), line, &r.bytes, r.len, span) {
        put_first(bytes, &r.bytes, r.len);
        return Growing {
            len: r.len,
            from: span.from,
            to: span.to,
            note: edge::UNTOUCHED,
        };
    }
    put_grown(dicts, line, places, r, span, bytes)
}

// The edge of a span with a romanization `w` that the vowel step leaves as it is: the expansion, unless that does too.
fn voiceless_edge(
    dicts: &Dicts,
    line: &[u32],
    places: &mut [u32],
    w: &[u8],
    tail: bool,
    span: Span,
    bytes: &mut [u8],
) -> Spanned
    requires { (length w.now ≤ most_target) × (span.to ≤ size_in line.now) × (bytes.old ≡ replicate most_bytes 0) }
    ensures { (vowels : List ℕ) → ((x : World) → Lined x line.now → Voiceless x (vowels_of vowels) span.from span.to)
        → FindsEdge dicts.now.rules.now dicts.now.ready.now vowels dicts.now.code.now line.now
        places.old places.new (λ D t v. edge_of D t v tail w.now span.from span.to) bytes.new result }
{
    if plain::is_untouched(words::choices_in(dicts.ready), line, w, w.len(), span) {
        lent_bytes::put_text(bytes, w);
        return Spanned {
            numbers: as_edge(tail, w.len(), false, span.from, span.to, edge::UNTOUCHED),
            len: w.len(),
        };
    }
    let x = put_grown(dicts, line, places, rom::bytes_of(w), span, bytes);
    Spanned {
        numbers: as_edge(tail, w.len(), false, x.from, x.to, x.note),
        len: x.len,
    }
}

// The edge of a span with a romanization `w`: vowel step, then expansion.
fn edge_of(
    dicts: &Dicts,
    line: &[u32],
    places: &mut [u32],
    w: &[u8],
    tail: bool,
    span: Span,
    bytes: &mut [u8],
) -> Spanned
    requires { FineVowels dicts.now.vowels.now × (length w.now ≤ most_target) × (span.to ≤ size_in line.now) × (bytes.old ≡ replicate most_bytes 0) }
    ensures { FindsEdge dicts.now.rules.now dicts.now.ready.now dicts.now.vowels.now dicts.now.code.now line.now
        places.old places.new (λ D t v. edge_of D t v tail w.now span.from span.to) bytes.new result }
{
    if plain::is_voiceless(dicts.vowels, line, span) {
        return voiceless_edge(dicts, line, places, w, tail, span, bytes);
    }
    let v = voiced(dicts, line, places, w, tail, span);
    let x = put_expanded(dicts, line, places, v.rom, span, bytes);
    Spanned {
        numbers: as_edge(tail, w.len(), v.grown, x.from, x.to, x.note),
        len: x.len,
    }
}

// The edge of a span, where full search answers a text; its own is put into what is lent.
pub fn put_span_edge(
    dicts: &Dicts,
    line: &[u32],
    places: &mut [u32],
    look: Look,
    bytes: &mut [u8],
) -> Option<Spanned>
    requires { FineVowels dicts.now.vowels.now × Looked dicts.now.rules.now line.now look × (bytes.old ≡ replicate most_bytes 0) }
    ensures { Finds dicts.now.rules.now dicts.now.ready.now dicts.now.vowels.now dicts.now.code.now line.now
        places.old places.new (λ D t v. span_edge D t v look.span.from look.span.to) (found bytes.new result)
        × Leaves bytes.old bytes.new result }
{
    let target = syllables::top_romanization_candidate_for_span(dicts, line, places, look)?;
    let w = rule_choice::chosen_text(dicts.rules, Some(target));
    Some(edge_of(
        dicts,
        line,
        places,
        without_plus(w),
        is_tail(w),
        look.span,
        bytes,
    ))
}

// A fallback's plus is dropped before m, n, g or r.
#[tactic(auto, using(crate::proofs::Tails::in_plus_before), unfolding(definition::specs::Building::fallback_plus, base::specs::Lists::head))]
fn fallback_plus(w: &[u8]) -> bool
    ensures { result ≡ fallback_plus w.now }
{
    matches!(w, [b'+', c, ..] if rom::is_in(rom::PLUS_BEFORE, u32::from(*c)))
}

#[tactic(auto, using(crate::proofs::Tails::fallback_not_empty, crate::proofs::Tails::behind_first), unfolding(crate::specs::Spans::plus_dropped, base::specs::Pick::pick))]
fn plus_dropped(w: &[u8]) -> &[u8]
    ensures { result.now ≡ plus_dropped w.now }
{
    if fallback_plus(w) {
        return without_first(w);
    }
    w
}

// The text of a fallback: a part of the rule table, or of the text the character's own bytes.
pub fn fallback_text<'a>(
    rules: &'a [u8],
    text: &'a [u8],
    chosen: Option<Target>,
    at: usize,
    len: usize,
) -> &'a [u8]
    requires { Said rules.now chosen × (at + len ≤ length text.now) }
    ensures { result.now ≡ fallback_bytes (chosen_means rules.now chosen) (take len (drop at text.now)) }
{
    if chosen.is_some() {
        return plus_dropped(rule_choice::chosen_text(rules, chosen));
    }
    lent_bytes::part(text, at, len)
}

// The annotation of a category whose characters have no letters.
#[tactic(auto, unfolding(crate::specs::Spans::category_note, base::specs::Pick::pick))]
pub fn category_note(category: u32) -> u8
    ensures { result ≡ category_note category }
{
    match category {
        table_classes::NONSPACING => edge::MN,
        table_classes::FORMAT => edge::CF,
        table_classes::PRIVATE => edge::CO,
        table_classes::SEPARATOR => edge::ZS,
        _ => edge::UNTOUCHED,
    }
}
