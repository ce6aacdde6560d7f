// Choosing a rule (rules.rs).
#![tactic(auto)]

ghost use Rattle.std.specs.Prelude.{◌≡◌, ◌||◌, ◌<◌, ◌≤◌, drop};
ghost use Rattle.base.specs.Pick.{pick};
ghost use Rattle.base.specs.Lists.{bind};
ghost use Rattle.definition.specs.Texts.{Text};
ghost use Rattle.definition.specs.RuleRows.{rule_flag, whole_word_bit, rule_of, rules_of};
ghost use Rattle.definition.specs.Boundaries.{word_end};
ghost use Rattle.definition.specs.Rules.{higher, first_rule, lang, asks_start, holds_at, valid, choose, simple};
ghost use Rattle.words.specs.Given.{World, kinds, size_in, Told, Lined};
ghost use Rattle.words.specs.Found.{Row};
ghost use Rattle.words.specs.Looks.{Looked};
ghost use Rattle.rule_choice.specs.Lent.{Answers};
ghost use Rattle.rule_choice.specs.Fold.{beats, improve};
ghost use Rattle.rule_choice.specs.Chosen.{choice_means, Rowed, chosen_means, Said, or_nothing, allowed, start_holds, asks_end, end_holds};

use words::{Dicts, Look, Span};

// The stretch of the rule table that a search answers: a row's own target, or its target at an end of syllable.
#[derive(Clone, Copy)]
pub enum Target {
    Own(usize),
    AtEnd(usize),
}

// `matches_lcode`: the language code is one of the codes, or there are none.
pub fn matches_lcode(rules: &[u8], code: &[u8], row: usize) -> bool
    requires { Row (drop row rules.now) }
    ensures { result ≡ lang code.now (rule_of (drop row rules.now)) }
{
    let codes = rule_row::codes_count(rules, row);
    let mut at = row + rule_row::codes_at(rules, row) + 1;
    for _turn in 0..codes {
        if code == lent_bytes::part(rules, at, 3) {
            return true;
        }
        at += 3;
    }
    codes == 0
}

// Flags ask about two places, the start and the end of a word: for each one asks that the span is there and one that it is
// not, and the one for whole words asks both. Do they ask about a place?
fn asks(rules: &[u8], row: usize, only: u32, never: u32) -> bool
    requires { (only < 8) × (never < 8) }
    ensures { result ≡ (rule_flag (drop row rules.now) only || rule_flag (drop row rules.now) never
        || rule_flag (drop row rules.now) whole_word_bit) }
{
    rule_row::flag(rules, row, only)
        || rule_row::flag(rules, row, never)
        || rule_row::flag(rules, row, rule_row::WHOLE_WORD_BIT)
}

// Does what these flags ask of a place hold, where the span is there or not?
#[tactic(auto, unfolding(crate::specs::Chosen::allowed))]
fn allows(rules: &[u8], row: usize, only: u32, never: u32, there: bool) -> bool
    requires { (only < 8) × (never < 8) }
    ensures { result ≡ allowed (rule_flag (drop row rules.now) only) (rule_flag (drop row rules.now) never)
        (rule_flag (drop row rules.now) whole_word_bit) there }
{
    if there {
        !rule_row::flag(rules, row, never)
    } else {
        !rule_row::flag(rules, row, only) && !rule_row::flag(rules, row, rule_row::WHOLE_WORD_BIT)
    }
}

// What the flags ask of a start of word: is it asked, and does it hold?
#[tactic(auto, unfolding(definition::specs::Rules::asks_start, definition::specs::RuleRows::rule_of))]
fn asks_start(rules: &[u8], row: usize) -> bool
    ensures { result ≡ asks_start (rule_of (drop row rules.now)) }
{
    asks(
        rules,
        row,
        rule_row::START_ONLY_BIT,
        rule_row::NOT_START_BIT,
    )
}

#[tactic(auto, unfolding(crate::specs::Chosen::start_holds, definition::specs::RuleRows::rule_of))]
fn start_holds(rules: &[u8], row: usize, start: bool) -> bool
    ensures { result ≡ start_holds (rule_of (drop row rules.now)) start }
{
    allows(
        rules,
        row,
        rule_row::START_ONLY_BIT,
        rule_row::NOT_START_BIT,
        start,
    )
}

// What the flags ask of an end of word: is it asked, and does it hold?
#[tactic(auto, unfolding(crate::specs::Chosen::asks_end, definition::specs::RuleRows::rule_of))]
fn asks_end(rules: &[u8], row: usize) -> bool
    ensures { result ≡ asks_end (rule_of (drop row rules.now)) }
{
    asks(rules, row, rule_row::END_ONLY_BIT, rule_row::NOT_END_BIT)
}

#[tactic(auto, unfolding(crate::specs::Chosen::end_holds, definition::specs::RuleRows::rule_of))]
fn end_holds(rules: &[u8], row: usize, end: bool) -> bool
    ensures { result ≡ end_holds (rule_of (drop row rules.now)) end }
{
    allows(
        rules,
        row,
        rule_row::END_ONLY_BIT,
        rule_row::NOT_END_BIT,
        end,
    )
}

// Do code and word flags hold, where the code does or not (`spoken`), and the span is at a start of word or not? Its end
// is asked only where a flag asks it: it is the expensive question, and remembers nothing.
#[tactic(auto, using(crate::proofs::Flags::holds_is, crate::proofs::Flags::unasked), unfolding(crate::specs::Chosen::asks_end, crate::specs::Chosen::end_holds))]
fn holds_at(dicts: &Dicts, line: &[u32], row: usize, spoken: bool, start: bool, e: usize) -> bool
    requires { (0 < e) × (e ≤ size_in line.now) }
    ensures { (w : World) (code : Text) → Told w dicts.now.ready.now → Lined w line.now
        → spoken ≡ lang code (rule_of (drop row dicts.now.rules.now)) → result ≡ holds_at code start
        (word_end (rules_of dicts.now.rules.now) (kinds w) w.text e) (rule_of (drop row dicts.now.rules.now)) }
{
    spoken
        && start_holds(dicts.rules, row, start)
        && (!asks_end(dicts.rules, row)
            || end_holds(dicts.rules, row, words::is_at_end_of_word(dicts, line, e)))
}

// Do code and word flags hold, where it is known whether the span is at a start and at an end of word?
#[tactic(auto, using(crate::proofs::Flags::holds_is))]
pub fn holds(rules: &[u8], code: &[u8], row: usize, start: bool, end: bool) -> bool
    requires { Row (drop row rules.now) }
    ensures { result ≡ holds_at code.now start end (rule_of (drop row rules.now)) }
{
    matches_lcode(rules, code, row) && start_holds(rules, row, start) && end_holds(rules, row, end)
}

// Is the rule in a row valid for a span? The start of a word is asked only where a flag asks it, but then also under a
// foreign language code: it is remembered.
#[tactic(auto, using(crate::proofs::Asking::valid_where_asked, crate::proofs::Asking::valid_where_none_asked))]
pub fn cand_is_valid(
    dicts: &Dicts,
    line: &[u32],
    places: &mut [u32],
    row: usize,
    span: Span,
) -> bool
    requires { Row (drop row dicts.now.rules.now) × (span.to ≤ size_in line.now) }
    ensures { Answers dicts.now line.now places.old places.new
        (λ L t v. valid L t v span.from span.to (rule_of (drop row dicts.now.rules.now))) result }
{
    let spoken = matches_lcode(dicts.rules, dicts.code, row);
    let asked = asks_start(dicts.rules, row);
    if asked {
        let start = words::is_at_start_of_word(line, places, span.from);
        return holds_at(dicts, line, row, spoken, start, span.to);
    }
    holds_at(dicts, line, row, spoken, false, span.to)
}

// Has the rule in a row a higher count than the one in another?
#[tactic(auto, unfolding(definition::specs::Rules::higher, definition::specs::RuleRows::rule_of))]
fn is_higher(rules: &[u8], row: usize, other: usize) -> bool
    ensures { result ≡ higher (rule_of (drop row rules.now)) (rule_of (drop other rules.now)) }
{
    rule_row::count(rules, other) < rule_row::count(rules, row)
}

// Does the rule in a row beat the one in another? A rule with a target beats one without; else the higher count does.
#[tactic(auto, using(crate::proofs::Targets::has_target), unfolding(crate::specs::Fold::beats, base::specs::Pick::pick))]
fn beats(rules: &[u8], row: usize, other: usize) -> bool
    ensures { result ≡ beats (rule_of (drop row rules.now)) (rule_of (drop other rules.now)) }
{
    let targeted = rule_row::flag(rules, row, rule_row::TARGET_BIT);
    if targeted == rule_row::flag(rules, other, rule_row::TARGET_BIT) {
        return is_higher(rules, row, other);
    }
    targeted
}

// The best so far, where the rule in a row is valid and may beat it.
#[tactic(auto, unfolding(crate::specs::Fold::improve, base::specs::Pick::pick))]
fn improve(rules: &[u8], row: usize, valid: bool, best: Option<usize>) -> Option<usize>
    requires { Row (drop row rules.now) × Rowed rules.now best }
    ensures { (choice_means rules.now result
        ≡ pick valid (improve (choice_means rules.now best) (rule_of (drop row rules.now))) (choice_means rules.now best))
        × Rowed rules.now result }
{
    if valid {
        let Some(other) = best else {
            return Some(row);
        };
        if beats(rules, row, other) {
            return Some(row);
        }
    }
    best
}

// The rule that wins a span, by what was looked up of it: of the valid ones the earliest of the highest count among those
// with a target; without any such, among all.
pub fn top_rule(dicts: &Dicts, line: &[u32], places: &mut [u32], look: Look) -> Option<usize>
    requires { Looked dicts.now.rules.now line.now look }
    ensures { Answers dicts.now line.now places.old places.new
        (λ L t v. choose L t v look.span.from look.span.to) (choice_means dicts.now.rules.now result) × Rowed dicts.now.rules.now result }
{
    let mut row = look.found.first;
    let mut best = None;
    for _turn in 0..look.found.count {
        let valid = cand_is_valid(dicts, line, places, row, look.span);
        best = improve(dicts.rules, row, valid, best);
        row += rule_row::size(dicts.rules, row);
    }
    best
}

// The target of the rule that was chosen, where it has one.
#[tactic(auto, unfolding(definition::specs::RuleRows::rule_of, definition::specs::RuleRows::text_where, base::specs::Pick::pick))]
pub fn target_of(rules: &[u8], choice: Option<usize>) -> Option<Target>
    requires { Rowed rules.now choice }
    ensures { (chosen_means rules.now result ≡ bind (choice_means rules.now choice) (λ x. x.target)) × Said rules.now result }
{
    let row = choice?;
    if rule_row::flag(rules, row, rule_row::TARGET_BIT) {
        Some(Target::Own(row))
    } else {
        None
    }
}

// Simple search: the winner's target. A span past the text has none.
pub fn simple_top_romanization_candidate_for_span(
    dicts: &Dicts,
    line: &[u32],
    places: &mut [u32],
    span: Span,
) -> Option<Target>
    ensures { Answers dicts.now line.now places.old places.new
        (λ L t v. simple L t v span.from span.to) (chosen_means dicts.now.rules.now result) × Said dicts.now.rules.now result }
{
    if words::text_len(line) < span.to {
        return None;
    }
    let look = words::look_up(dicts, line, span);
    let best = top_rule(dicts, line, places, look);
    target_of(dicts.rules, best)
}

// The target of the first row with a source, whatever its codes and flags.
pub fn romanization_by_first_rule(dicts: &Dicts, source: &[u32]) -> Option<Target>
    ensures { (chosen_means dicts.now.rules.now result ≡ first_rule (rules_of dicts.now.rules.now) source.now) × Said dicts.now.rules.now result }
{
    let found = rule_memo::look_up(dicts.rules, words::index_in(dicts.ready), source);
    if found.count == 0 {
        return None;
    }
    target_of(dicts.rules, Some(found.first))
}

// The text that was chosen, a part of the lent table.
pub fn chosen_text<'a>(rules: &'a [u8], chosen: Option<Target>) -> &'a [u8]
    requires { Said rules.now chosen }
    ensures { result.now ≡ or_nothing (chosen_means rules.now chosen) }
{
    match chosen {
        Some(Target::Own(row)) => rule_row::target_text(rules, row),
        Some(Target::AtEnd(row)) => rule_row::end_target_text(rules, row),
        None => &rules[..0],
    }
}
