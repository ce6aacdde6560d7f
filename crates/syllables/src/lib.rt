// End of syllable (word_boundaries.rs), and the full search that asks it (rules.rs).
#![tactic(auto)]

ghost use Rattle.std.specs.Prelude.{◌≡◌, ◌+◌, ◌/◌, ◌≤◌, length};
ghost use Rattle.base.specs.Pick.{pick};
ghost use Rattle.base.specs.Bits.{flagged};
ghost use Rattle.base.specs.Lists.{head, is};
ghost use Rattle.definition.specs.Texts.{vowels, lower};
ghost use Rattle.definition.specs.Syllables.{opens, next_rom, o_ang_test, vowel_test, syllable_end, full};
ghost use Rattle.words.specs.Given.{size_in, kind_in};
ghost use Rattle.words.specs.Looks.{Looked};
ghost use Rattle.rule_choice.specs.Lent.{Answers};
ghost use Rattle.rule_choice.specs.Chosen.{chosen_means, Said};

use rule_choice::Target;
use words::characters::O_ANG;
use words::{Dicts, Look, Span};

// Does a text start with a vowel, large or small?
fn starts_with_vowel(text: &[u8]) -> bool
    ensures { result ≡ is (λ c. vowels (lower c)) (head text.now) }
{
    !text.is_empty() && rom::is_in(rom::VOWELS, rom::lower(text[0]) as u32)
}

// Does the text that a search answered start with a vowel?
#[tactic(auto, using(crate::specs::Sounds::opens_text))]
fn opens(rules: &[u8], rom: Option<Target>) -> bool
    requires { Said rules.now rom }
    ensures { result ≡ opens (chosen_means rules.now rom) }
{
    starts_with_vowel(rule_choice::chosen_text(rules, rom))
}

// One tone mark is skipped.
#[tactic(auto, unfolding(base::specs::Pick::pick))]
fn past_tone(line: &[u32], p: usize) -> usize
    requires { p + 1 ≤ length line.now / 2 }
    ensures { result ≡ pick (flagged (kind_in line.now (p + 1) / 1024) 5) (p + 1) p }
{
    if table_classes::class_flag(words::kind_at(line, p + 1), table_classes::TONE) {
        return p + 1;
    }
    p
}

// What simple search answers at `q`: a source of two characters before a source of one.
fn next_rom(dicts: &Dicts, line: &[u32], places: &mut [u32], q: usize) -> Option<Target>
    requires { q ≤ size_in line.now + 1 }
    ensures { Answers dicts.now line.now places.old places.new
        (λ L t v. next_rom L t v q) (chosen_means dicts.now.rules.now result) × Said dicts.now.rules.now result }
{
    let two = rule_choice::simple_top_romanization_candidate_for_span(
        dicts,
        line,
        places,
        Span { from: q, to: q + 2 },
    );
    if two.is_some() {
        return two;
    }
    rule_choice::simple_top_romanization_candidate_for_span(
        dicts,
        line,
        places,
        Span { from: q, to: q + 1 },
    )
}

// O ang followed by a vowel is the end of a syllable too.
fn o_ang_test(dicts: &Dicts, line: &[u32], places: &mut [u32], q: usize) -> bool
    requires { q ≤ size_in line.now + 1 }
    ensures { Answers dicts.now line.now places.old places.new
        (λ L t v. o_ang_test L t v q) result }
{
    if words::number_at(line, q + 1) != O_ANG {
        return false;
    }
    let rom = rule_choice::simple_top_romanization_candidate_for_span(
        dicts,
        line,
        places,
        Span {
            from: q + 1,
            to: q + 2,
        },
    );
    opens(dicts.rules, rom)
}

// No vowel follows, or O ang and a vowel.
fn vowel_test(dicts: &Dicts, line: &[u32], places: &mut [u32], q: usize) -> bool
    requires { q ≤ size_in line.now + 1 }
    ensures { Answers dicts.now line.now places.old places.new
        (λ L t v. vowel_test L t v q) result }
{
    let rom = next_rom(dicts, line, places, q);
    !opens(dicts.rules, rom) || o_ang_test(dicts, line, places, q)
}

// Test by test in the file's order; only the yes or no is kept.
pub fn is_at_end_of_syllable(dicts: &Dicts, line: &[u32], places: &mut [u32], p: usize) -> bool
    requires { (1 ≤ p) × (p ≤ size_in line.now) }
    ensures { Answers dicts.now line.now places.old places.new
        (λ L t v. syllable_end L t v p) result }
{
    // the character two back from `p`
    let back = words::kind_at(line, p - 1);
    if !words::is_alpha_kind(back) || table_classes::class_flag(back, table_classes::PRE) {
        return false;
    }
    let q = past_tone(line, p);
    let next = words::kind_at(line, q + 1);
    if table_classes::class_flag(next, table_classes::PRE) || !words::is_alpha_kind(next) {
        return true;
    }
    !edge_places::is_closed(places, p - 1) && vowel_test(dicts, line, places, q)
}

// Full search: the winner's end-of-syllable target where it has one and the span's end is an end of syllable, else its
// target.
pub fn top_romanization_candidate_for_span(
    dicts: &Dicts,
    line: &[u32],
    places: &mut [u32],
    look: Look,
) -> Option<Target>
    requires { Looked dicts.now.rules.now line.now look }
    ensures { Answers dicts.now line.now places.old places.new
        (λ L t v. full L t v look.span.from look.span.to) (chosen_means dicts.now.rules.now result) × Said dicts.now.rules.now result }
{
    let best = rule_choice::top_rule(dicts, line, places, look);
    let row = best?;
    if rule_row::flag(dicts.rules, row, rule_row::END_TARGET_BIT)
        && is_at_end_of_syllable(dicts, line, places, look.span.to)
    {
        return Some(Target::AtEnd(row));
    }
    rule_choice::target_of(dicts.rules, best)
}
