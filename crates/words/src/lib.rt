// Start and end of word (word_boundaries.rs). What is asked of the text is asked of its characters' classes, which stand
// in the line behind the characters; what is asked of the edges is asked of places. Of position `p` the line has the
// character at `p + 1`, the one before it at `p`.
#![tactic(auto)]

ghost use Rattle.std.specs.Prelude.{◌≡◌, List, ℕ, ◌+◌, ◌/◌, ◌<◌, ◌≤◌, length, drop, get_or};
ghost use Rattle.base.specs.Lists.{any};
ghost use Rattle.definition.specs.RuleRows.{rule_of, rules_of};
ghost use Rattle.definition.specs.ClassRows.{classes_of};
ghost use Rattle.definition.specs.Boundaries.{fresh, word_start, word_end};
ghost use Rattle.table_classes.specs.Told.{alphas_of};
ghost use Rattle.words.specs.Did.{Asked};
ghost use Rattle.words.specs.Given.{World, kinds, seen, size_in, kind_in, forms_in, index_from, index_in, letters_in, choices_in, mode_in, all_ready, ready_in, line_in, Told, Lined, Lent, alpha_kind};
ghost use Rattle.words.specs.Found.{Row, Rows, rules_in};
ghost use Rattle.words.specs.Looks.{Looked};
ghost use Rattle.words.specs.Choosing.{choices_of};
ghost use Rattle.words.specs.Goes.{brings, letter_byte};

pub mod characters;
mod given;

pub use given::{Dicts, Span};
use rule_table::Found;

// A stretch of the text with what the rule table has of it: the rows of its rules, and whether a longer source starts
// with it.
#[derive(Clone, Copy)]
pub struct Look {
    pub span: Span,
    pub found: Found,
}

// The choices of a call (`Choices` of the definition), each 0 or 1: numbers as the definition's are, since nothing says
// that no other number was made ready.
#[derive(Clone, Copy)]
pub struct Choices {
    pub capitals: u32,
    pub o_ang: u32,
    pub readings: u32,
}

// Where what was made ready has the choices, behind the ASCII letters, and the mode; where the index of the decomposition
// table begins, with so many entries, and where that of the rule table does; and how much all of it is.
pub const CAPITALS: usize = 128;

pub const O_ANG: usize = CAPITALS + 1;

pub const READINGS: usize = O_ANG + 1;

pub const MODE: usize = READINGS + 1;

pub const FORMS: usize = MODE + 1;

pub const FORM_ENTRIES: usize = 512;

pub const INDEX: usize = FORMS + FORM_ENTRIES;

pub const READY: usize = INDEX + rule_memo::PLACES;

// The number at a place; past the end there is 0.
pub fn number_at(numbers: &[u32], i: usize) -> u32
    ensures { result ≡ get_or numbers.now i 0 }
{
    numbers.get(i).copied().unwrap_or(0)
}

// How many characters the text has: the line has three spaces more, and of each its class.
pub fn text_len(line: &[u32]) -> usize
    ensures { result ≡ size_in line.now }
{
    (line.len() / 2).saturating_sub(3)
}

// The class at a place.
pub fn kind_at(line: &[u32], i: usize) -> u32
    requires { i ≤ length line.now / 2 }
    ensures { result ≡ kind_in line.now i }
{
    number_at(line, line.len() / 2 + i)
}

// Is a class that of a letter or mark?
#[tactic(auto, unfolding(crate::specs::Given::alpha_kind))]
pub fn is_alpha_kind(kind: u32) -> bool
    ensures { result ≡ alpha_kind kind }
{
    matches!(table_classes::category(kind), 1..=3)
}

// Is the character at a place a letter or mark?
pub fn is_alpha_at(line: &[u32], i: usize) -> bool
    requires { i ≤ length line.now / 2 }
    ensures { result ≡ alpha_kind (kind_in line.now i) }
{
    is_alpha_kind(kind_at(line, i))
}

// No letter or mark before, and no edge ending here whose text ends in one.
fn is_fresh(line: &[u32], places: &[u32], p: usize) -> bool
    requires { p < size_in line.now }
    ensures { (w : World) → Lent w line.now places.now → result ≡ fresh (kinds w) w.text (seen w) p }
{
    !is_alpha_at(line, p) && !edge_places::has_letter(places, p)
}

// Worked out at first asking, then remembered: a later edge doesn't change it.
#[tactic(auto, using(crate::proofs::Afresh::value_afresh, crate::proofs::Afresh::memory_afresh, crate::proofs::Afresh::told_afresh))]
pub fn is_at_start_of_word(line: &[u32], places: &mut [u32], p: usize) -> bool
    requires { p < size_in line.now }
    ensures { (w : World) → Lent w line.now places.old
        → Asked w (word_start (kinds w) w.text (seen w) p) places.old places.new result }
{
    let known = edge_places::start(places, p);
    if known == 0 {
        let start = is_fresh(line, places, p);
        edge_places::remember(places, p, start);
        return start;
    }
    known == 1
}

// Does an ASCII text hold a letter or mark?
fn has_letter(ready: &[u32], text: &[u8]) -> bool
    ensures { result ≡ any (letter_byte ready.now) text.now }
{
    text.iter()
        .any(|byte| number_at(ready, usize::from(*byte)) == 1)
}

// The choices, behind the ASCII letters.
pub fn choices_in(ready: &[u32]) -> Choices
    ensures { choices_of result ≡ choices_in ready.now }
{
    Choices {
        capitals: number_at(ready, CAPITALS),
        o_ang: number_at(ready, O_ANG),
        readings: number_at(ready, READINGS),
    }
}

// The mode, behind the choices.
pub fn mode_in(ready: &[u32]) -> u32
    ensures { result ≡ mode_in ready.now }
{
    number_at(ready, MODE)
}

// The index of the decomposition table.
pub fn forms_in(ready: &[u32]) -> &[u32]
    requires { index_from ≤ length ready.now }
    ensures { result.now ≡ forms_in ready.now }
{
    &ready[FORMS..INDEX]
}

// The index of the rule table with what is kept of characters, behind the other.
pub fn index_in(ready: &[u32]) -> &[u32]
    requires { index_from ≤ length ready.now }
    ensures { result.now ≡ index_in ready.now }
{
    &ready[INDEX..]
}

// What is prepared: what was made ready, and the line behind it.
pub fn ready_in(prepared: &[u32]) -> &[u32]
    requires { all_ready ≤ length prepared.now }
    ensures { result.now ≡ ready_in prepared.now }
{
    &prepared[..READY]
}

pub fn line_in(prepared: &[u32]) -> &[u32]
    requires { all_ready ≤ length prepared.now }
    ensures { result.now ≡ line_in prepared.now }
{
    &prepared[READY..]
}

// Does the rule in a row bring a letter, unless it asks a start of word?
fn brings_letter(dicts: &Dicts, row: usize) -> bool
    requires { Row (drop row dicts.now.rules.now) }
    ensures { (classes : List ℕ) → letters_in dicts.now.ready.now ≡ alphas_of classes
        → result ≡ brings (classes_of classes) (rule_of (drop row dicts.now.rules.now)) }
{
    !rule_row::flag(dicts.rules, row, rule_row::START_ONLY_BIT)
        && rule_row::flag(dicts.rules, row, rule_row::TARGET_BIT)
        && has_letter(dicts.ready, rule_row::target_text(dicts.rules, row))
}

// What the rule table has of a span, by one search.
pub fn look_up(dicts: &Dicts, line: &[u32], span: Span) -> Look
    requires { span.to ≤ size_in line.now }
    ensures { Looked dicts.now.rules.now line.now result × (result.span ≡ span) }
{
    let text = &line[span.from + 1..span.to + 1];
    Look {
        span,
        found: rule_memo::look_up(dicts.rules, index_in(dicts.ready), text),
    }
}

// Does one of the rules in some rows, one after another, bring a letter without asking a start of word?
fn rows_bring_letter(dicts: &Dicts, first: usize, count: usize) -> bool
    requires { Rows dicts.now.rules.now first count }
    ensures { (classes : List ℕ) → letters_in dicts.now.ready.now ≡ alphas_of classes
        → result ≡ any (brings (classes_of classes)) (rules_in dicts.now.rules.now first count) }
{
    let mut row = first;
    for _turn in 0..count {
        if brings_letter(dicts, row) {
            return true;
        }
        row += rule_row::size(dicts.rules, row);
    }
    false
}

// No letter or mark next, and no source from here that brings one. Ends are asked while there is a longer source.
pub fn is_at_end_of_word(dicts: &Dicts, line: &[u32], p: usize) -> bool
    requires { (0 < p) × (p ≤ size_in line.now) }
    ensures { (w : World) → Told w dicts.now.ready.now → Lined w line.now
        → result ≡ word_end (rules_of dicts.now.rules.now) (kinds w) w.text p }
{
    if is_alpha_at(line, p + 1) {
        return false;
    }
    for end in p + 1..=text_len(line) {
        let found = look_up(dicts, line, Span { from: p, to: end }).found;
        if rows_bring_letter(dicts, found.first, found.count) {
            return false;
        }
        if !found.more {
            return true;
        }
    }
    true
}
