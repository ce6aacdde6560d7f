// The expansion (`expand_rom_with_special_chars`): its steps in the file's order.
#![tactic(auto)]

ghost use Rattle.std.specs.Prelude.{true, ◌∷◌, ◌++◌, ◌≡◌, ◌+◌, ◌<◌, ◌≤◌, length, take};
ghost use Rattle.base.specs.Lists.{has};
ghost use Rattle.definition.specs.Limits.{most_bytes, most_target, most_vowel};
ghost use Rattle.definition.specs.Texts.{without_last, letter_e};
ghost use Rattle.definition.specs.Notes.{note_exp};
ghost use Rattle.definition.specs.RuleRows.{rules_of};
ghost use Rattle.definition.specs.Classes.{script};
ghost use Rattle.definition.specs.Expansion.{work, capitalize, double, small_ya, small_target, grave, small_y, rest, thai, by_script, expand};
ghost use Rattle.rom.specs.Rom.{text, held, Clean};
ghost use Rattle.words.specs.Given.{World, kinds, size_in, Lined};
ghost use Rattle.rule_choice.specs.Lent.{Answers};
ghost use Rattle.rule_choice.specs.Chosen.{chosen_means, Said, or_nothing};
ghost use Rattle.words.specs.Choosing.{choices_of};
ghost use Rattle.capitals.specs.Spans.{over};
ghost use Rattle.steps.specs.Works.{work_of, work_in, Held};
ghost use Rattle.expand.specs.Tests.{has_grave, ruled};
ghost use Rattle.expand.specs.Sides.{after_consonant, small_here};
ghost use Rattle.expand.specs.Steps.{Workable, Opens};

use rom::Rom;
use rule_choice::Target;
use std::ops::ControlFlow;
use steps::{Growing, Work};
use words::characters::{
    GRAVE, HIRAGANA_YA, HIRAGANA_YO, HIRAGANA_YU, KATAKANA_YA, KATAKANA_YO, KATAKANA_YU,
};
use words::{Choices, Dicts, Span};

// Does a grave stand over a Coptic character, the last before `to`? None does past the text.
fn has_grave(line: &[u32], to: usize) -> bool
    requires { (0 < to) × (to ≤ size_in line.now) }
    ensures { ((x : World) → Lined x line.now → result ≡ has_grave (kinds x) x.text to) × (result ≡ true → to < size_in line.now) }
{
    to < words::text_len(line)
        && words::number_at(line, to + 1) == GRAVE
        && table_classes::script(words::kind_at(line, to)) == table_classes::COPTIC
}

// Does a rule have a span? What a search answers is not asked.
fn is_ruled(dicts: &Dicts, line: &[u32], places: &mut [u32], span: Span) -> bool
    ensures { Answers dicts.now line.now places.old places.new
        (λ L t v. ruled L t v span.from span.to) result }
{
    rule_choice::simple_top_romanization_candidate_for_span(dicts, line, places, span).is_some()
}

// An e put in front, over the grave after the span, up to `to`.
fn put_grave(bytes: &mut [u8], g: Growing, to: usize) -> Growing
    requires { Held bytes.old g × (g.len < most_bytes) }
    ensures { (work_in bytes.new result ≡ work (letter_e ∷ take g.len bytes.old) g.from to note_exp)
        × Held bytes.new result × (result.len ≡ g.len + 1) × (result.from ≡ g.from) × (result.to ≡ to) }
{
    let len = rom::put_front(bytes, g.len, b'e');
    Growing {
        len,
        to,
        note: edge::EXPANDED,
        ..g
    }
}

// Coptic: a grave puts an e in front, unless a rule has both from the first start `o`.
fn grave(
    dicts: &Dicts,
    line: &[u32],
    places: &mut [u32],
    bytes: &mut [u8],
    o: usize,
    g: Growing,
) -> Growing
    requires { Held bytes.old g × (g.len < most_bytes) × (o ≤ g.to) × (0 < g.to) × (g.to ≤ size_in line.now) }
    ensures { Answers dicts.now line.now places.old places.new
        (λ L t v. grave L t v o (work_in bytes.old g)) (work_in bytes.new result)
        × Held bytes.new result × (result.len ≤ g.len + 1) × (result.from ≡ g.from) × (g.to ≤ result.to) × (result.to ≤ size_in line.now) }
{
    if !has_grave(line, g.to) {
        return g;
    }
    let to = g.to + 1;
    if is_ruled(dicts, line, places, Span { from: o, to }) {
        return g;
    }
    put_grave(bytes, g, to)
}

// Small ya, yu or yo.
#[tactic(auto, unfolding(definition::specs::Expansion::small_ya, definition::specs::Texts::among))]
fn is_small_ya(c: u32) -> bool
    ensures { result ≡ small_ya c }
{
    matches!(
        c,
        HIRAGANA_YA | HIRAGANA_YU | HIRAGANA_YO | KATAKANA_YA | KATAKANA_YU | KATAKANA_YO
    )
}

// Does a small ya, yu or yo stand at `to`, of the script of the character before it? None does past the text.
fn is_small_next(line: &[u32], to: usize) -> bool
    requires { (0 < to) × (to ≤ size_in line.now) }
    ensures { ((x : World) → Lined x line.now → result ≡ small_here (kinds x) x.text to) × (result ≡ true → to < size_in line.now) }
{
    to < words::text_len(line)
        && is_small_ya(words::number_at(line, to + 1))
        && table_classes::script(words::kind_at(line, to))
            == table_classes::script(words::kind_at(line, to + 1))
}

// Does a text end in an i after a consonant?
fn ends_in_i(text: &[u8]) -> bool
    ensures { result ≡ after_consonant text.now }
{
    let n = text.len();
    2 <= n && text[n - 1] == b'i' && rom::is_in(rom::CONSONANTS, text[n - 2] as u32)
}

// What stands in the i's place: the first rule of the small ya.
fn small_target(dicts: &Dicts, line: &[u32], text: &[u8], g: Growing) -> Option<Target>
    requires { (0 < g.to) × (g.to ≤ size_in line.now) }
    ensures { ((x : World) → Lined x line.now
        → chosen_means dicts.now.rules.now result ≡ small_target (rules_of dicts.now.rules.now) (kinds x) x.text (work text.now g.from g.to g.note))
        × Said dicts.now.rules.now result × (has (chosen_means dicts.now.rules.now result) ≡ true → (g.to < size_in line.now) × (0 < length text.now)) }
{
    if is_small_next(line, g.to) && ends_in_i(text) {
        let small = words::number_at(line, g.to + 1);
        return rule_choice::romanization_by_first_rule(dicts, &[small]);
    }
    None
}

// A target in the place of the last letter, over the character after the span, up to `to`.
fn put_small(
    rules: &[u8],
    target: Option<Target>,
    bytes: &mut [u8],
    g: Growing,
    to: usize,
) -> Growing
    requires { Said rules.now target × Held bytes.old g × (0 < g.len) × (g.len + most_target ≤ most_bytes) }
    ensures { (work_in bytes.new result
        ≡ work (without_last (take g.len bytes.old) ++ or_nothing (chosen_means rules.now target)) g.from to note_exp)
        × Held bytes.new result × (result.len < most_bytes) × (result.from ≡ g.from) × (result.to ≡ to) }
{
    let short = rom::keep(bytes, g.len, 0, g.len - 1);
    let len = rom::put_behind(bytes, short, rule_choice::chosen_text(rules, target));
    Growing {
        len,
        to,
        note: edge::EXPANDED,
        ..g
    }
}

// Small ya, unless a rule has it too, from the first start or from where the span starts now.
#[tactic(auto, using(steps::proofs::Letters::held_within, steps::proofs::Letters::held_long))]
fn small_y(
    dicts: &Dicts,
    line: &[u32],
    places: &mut [u32],
    bytes: &mut [u8],
    o: usize,
    g: Growing,
) -> Growing
    requires { Workable (g.len + most_target ≤ most_bytes) dicts.now.rules.now dicts.now.ready.now line.now o bytes.old g }
    ensures { Answers dicts.now line.now places.old places.new
        (λ L t v. small_y L t v o (work_in bytes.old g)) (work_in bytes.new result)
        × Held bytes.new result × (result.len < most_bytes) × (result.from ≡ g.from) × (g.to ≤ result.to) × (result.to ≤ size_in line.now) }
{
    let target = small_target(dicts, line, &bytes[..g.len], g);
    if target.is_none() {
        return g;
    }
    let from = g.from;
    let to = g.to + 1;
    if is_ruled(dicts, line, places, Span { from: o, to }) {
        return g;
    }
    if is_ruled(dicts, line, places, Span { from, to }) {
        return g;
    }
    put_small(dicts.rules, target, bytes, g, to)
}

// Grave and small ya, and what ends the expansion.
fn rest(
    dicts: &Dicts,
    line: &[u32],
    places: &mut [u32],
    bytes: &mut [u8],
    o: usize,
    g: Growing,
) -> Growing
    requires { Workable (g.len + most_target < most_bytes) dicts.now.rules.now dicts.now.ready.now line.now o bytes.old g }
    ensures { Answers dicts.now line.now places.old places.new
        (λ L t v. rest L t v o (work_in bytes.old g)) (work_in bytes.new result) × Held bytes.new result }
{
    let u = grave(dicts, line, places, bytes, o, g);
    let x = small_y(dicts, line, places, bytes, o, u);
    steps::ending(line, bytes, x)
}

// Thai: the pattern ends the expansion; else comes the vowel written before, and then a silent O ang is deleted, which ends it too.
fn thai(
    choices: Choices,
    dicts: &Dicts,
    line: &[u32],
    places: &[u32],
    bytes: &mut [u8],
    o: usize,
    g: Growing,
) -> ControlFlow<Growing, Growing>
    requires { Workable (g.len + most_target + most_target < most_bytes) dicts.now.rules.now dicts.now.ready.now line.now o bytes.old g }
    ensures { Opens dicts.now.rules.now dicts.now.ready.now line.now places.now o
        (λ L t v. thai L t v (choices_of choices) o (work_in bytes.old g)) bytes.new result }
{
    if let Some(pattern) = steps::vowel_around(dicts, line, bytes, g) {
        return ControlFlow::Break(pattern);
    }
    let u = steps::vowel_before(dicts, line, bytes, g);
    if o_ang::is_silent(choices, dicts, line, places, o, u) {
        return ControlFlow::Break(Growing {
            len: rom::keep(bytes, u.len, 0, 0),
            note: edge::DELETED,
            ..u
        });
    }
    ControlFlow::Continue(u)
}

// What the script of the span's first character, at `o`, asks for before the rest.
fn by_script(
    choices: Choices,
    dicts: &Dicts,
    line: &[u32],
    places: &[u32],
    bytes: &mut [u8],
    o: usize,
    g: Growing,
) -> ControlFlow<Growing, Growing>
    requires { Workable (g.len + most_target + most_target < most_bytes) dicts.now.rules.now dicts.now.ready.now line.now o bytes.old g }
    ensures { Opens dicts.now.rules.now dicts.now.ready.now line.now places.now o
        (λ L t v. by_script L t v (choices_of choices) o (work_in bytes.old g)) bytes.new result }
{
    if table_classes::script(words::kind_at(line, o + 1)) != table_classes::THAI {
        return ControlFlow::Continue(g);
    }
    thai(choices, dicts, line, places, bytes, o, g)
}

// The first steps: capitals, or else doubling. A romanization in upper case begins with no letter that is doubled.
#[tactic(auto, using(steps::proofs::Letters::held_within, steps::proofs::Letters::held_long))]
fn first_steps(line: &[u32], choices: Choices, bytes: &mut [u8], n: usize, span: Span) -> Growing
    requires { Clean (held bytes.old n) × (n < most_bytes) × (span.to ≤ size_in line.now) }
    ensures { ((x : World) → Lined x line.now → work_in bytes.new result
        ≡ double (kinds x) x.text span.from (capitalize (choices_of choices) (kinds x) x.text (over span (take n bytes.old))))
        × Held bytes.new result × (result.len ≤ n + 1) × (result.from ≤ span.from) × (result.to ≡ span.to) }
{
    let g = Growing {
        len: n,
        from: span.from,
        to: span.to,
        note: edge::UNTOUCHED,
    };
    if capitals::makes_small(line, choices, &bytes[..n], span) {
        rom::make_small(bytes, n);
        return g;
    }
    steps::doubling(line, span.from, bytes, g)
}

// All steps, on the first `n` bytes of an array. No bytes are not expanded.
fn all_steps(
    choices: Choices,
    dicts: &Dicts,
    line: &[u32],
    places: &mut [u32],
    bytes: &mut [u8],
    n: usize,
    span: Span,
) -> Growing
    requires { Clean (held bytes.old n) × (n ≤ most_target + most_vowel) × (span.to ≤ size_in line.now) }
    ensures { Answers dicts.now line.now places.old places.new
        (λ L t v. expand L t v (choices_of choices) (take n bytes.old) span.from span.to) (work_in bytes.new result)
        × Held bytes.new result }
{
    if n == 0 {
        return Growing {
            len: n,
            from: span.from,
            to: span.to,
            note: edge::UNTOUCHED,
        };
    }
    let g = first_steps(line, choices, bytes, n, span);
    match by_script(choices, dicts, line, places, bytes, span.from, g) {
        ControlFlow::Break(done) => done,
        ControlFlow::Continue(u) => rest(dicts, line, places, bytes, span.from, u),
    }
}

// A romanization over its span through the expansion.
pub fn expand_rom_with_special_chars(
    choices: Choices,
    dicts: &Dicts,
    line: &[u32],
    places: &mut [u32],
    r: Rom,
    span: Span,
) -> Work
    requires { Clean r × (r.len ≤ most_target + most_vowel) × (span.to ≤ size_in line.now) }
    ensures { Answers dicts.now line.now places.old places.new
        (λ L t v. expand L t v (choices_of choices) (text r) span.from span.to) (work_of result) × Clean result.rom }
{
    let mut rom = r;
    let n = rom.len;
    let g = all_steps(choices, dicts, line, places, &mut rom.bytes, n, span);
    rom.len = g.len;
    Work {
        rom,
        from: g.from,
        to: g.to,
        note: g.note,
    }
}
