// The check of the rule table: what is wrong with it first and where, or nothing.
#![tactic(auto)]

ghost use Rattle.std.specs.Prelude.{◌≡◌, ◌≤◌, length, drop, IfSome};
ghost use Rattle.definition.specs.RuleRows.{rule_source, rises, rule_right};
ghost use Rattle.definition.specs.RuleFields.{read_row};
ghost use Rattle.definition.specs.RuleFaults.{field_fault, row_fault, rule_fault};
ghost use Rattle.definition.specs.Checking.{walk_at};
ghost use Rattle.rule_table_check.specs.Told.{rules_means, told_of, stopped_at};
ghost use Rattle.rule_table_check.specs.Marks.{mark_at, mark_behind, Rising, Past};
ghost use Rattle.rule_table_check.specs.Walks.{Stands};
ghost use Rattle.rule_table_check.specs.Plain.{Plain};

use rule_row_faults::{Fault, RuleFault};

// Bytes of a target, at most.
const MOST_TARGET: usize = rule_row_faults::MOST_TARGET as usize;

// Half of the rows that a table may have.
const HALF: u32 = table_blocks::MOST_ROWS / 2;

// A right row of the commonest kind: one character below the surrogates, not below `low`, no codes, a target, no
// alternatives. The answer is the row's end, or none for a row of another kind, whose fields are tested one by one.
fn plain_row(rules: &[u8], row: usize, low: u32) -> Option<usize>
    requires { row ≤ length rules.now }
    ensures { IfSome result (Plain low (drop row rules.now) row) }
{
    if rules.len() - row < 12
        || rule_row::source_len(rules, row) != 1
        || base::at(rules, row, 9) != 0
        || base::at(rules, row, 2) / 32 != 1
    {
        return None;
    }
    let n = base::at(rules, row, 10) as usize;
    if MOST_TARGET < n {
        return None;
    }
    if rule_row_test::size_there(rules, row) != 12 + n {
        return None;
    }
    let c = base::three(rules, row, 6);
    if c < low || 0xD7FF < c {
        return None;
    }
    if rules.len() - row < 12 + n || base::at(rules, row, 11 + n) != 0 {
        return None;
    }
    let from = row + 11;
    let to = from + n;
    if !rule_row_test::all_printable(rules, from, to) {
        return None;
    }
    Some(to + 1)
}

// Whether a row is right after the one at `old`, or as the first, where `low` is 0. From `low` on its first character rises;
// else whole sources are compared.
fn row_right(rules: &[u8], row: usize, old: usize, low: u32) -> bool
    requires { (row ≤ length rules.now) × Rising (mark_at rules.now old low) low }
    ensures { result ≡ rule_right (mark_at rules.now old low) (drop row rules.now) }
{
    if !rule_row_test::fields_right(rules, row) {
        return false;
    }
    low <= base::three(rules, row, 6) || rule_row::sources_rise(rules, old, row)
}

// The end of a right row, or none for a row at fault.
fn row_past(rules: &[u8], row: usize, old: usize, low: u32) -> Option<usize>
    requires { (row ≤ length rules.now) × Rising (mark_at rules.now old low) low }
    ensures { Past (mark_at rules.now old low) (drop row rules.now) row result }
{
    if let Some(end) = plain_row(rules, row, low) {
        return Some(end);
    }
    if !row_right(rules, row, old, low) {
        return None;
    }
    Some(row + rule_row::size(rules, row))
}

// Where the check of a rule table stands: at a row, with as many rows left, after the row at `old`. From `low` on a first
// character rises; 0 tells the first row.
#[derive(Clone, Copy)]
pub struct Walk {
    pub at: usize,
    pub left: u32,
    pub old: usize,
    pub low: u32,
}

// Past the right rows that stand one after another, as many at most as are left.
fn past_rows(rules: &[u8], start: Walk) -> Walk
    requires { Rising (mark_at rules.now start.old start.low) start.low }
    ensures { Stands rules.now start.at start.left start.old start.low result.at result.left result.old result.low }
{
    let mut walk = start;
    for _turn in 0..start.left {
        if rules.len() <= walk.at {
            return walk;
        }
        let Some(end) = row_past(rules, walk.at, walk.old, walk.low) else {
            return walk;
        };
        walk = Walk {
            at: end,
            left: walk.left - 1,
            old: walk.at,
            low: base::three_there(rules, walk.at, 6) + 1,
        };
    }
    walk
}

// The first field of the row at `at` that is faulty, if any: what is wrong, and the field's offset in the table.
#[tactic(auto, unfolding(definition::specs::RuleFaults::field_fault))]
fn fields_fault(rules: &[u8], at: usize) -> Result<(), RuleFault>
    requires { at ≤ length rules.now }
    ensures { rules_means result ≡ field_fault at (read_row (drop at rules.now)) }
{
    match rule_row_faults::read_row(rules, at) {
        Ok(_) => Ok(()),
        Err(fault) => Err(RuleFault {
            kind: fault.kind,
            at: at + fault.at,
        }),
    }
}

// What is wrong with the row at `at`, if anything: first that it is one too many, then its fields, and last its order.
// `rises` says that its source rises over the one before it.
#[tactic(auto, unfolding(base::specs::Lists::first_of, definition::specs::Refusals::when, base::specs::Pick::pick))]
fn told(rules: &[u8], at: usize, left: u32, rises: bool) -> Result<(), RuleFault>
    requires { at ≤ length rules.now }
    ensures { rules_means result ≡ told_of at left (drop at rules.now) rises }
{
    if left == 0 {
        return Err(RuleFault {
            kind: Fault::Rows,
            at,
        });
    }
    fields_fault(rules, at)?;
    if !rises {
        return Err(RuleFault {
            kind: Fault::Order,
            at,
        });
    }
    Ok(())
}

// Whether the row at `at` rises over the one before it, where there is one: the first row does.
#[tactic(auto, unfolding(definition::specs::RuleRows::rises))]
fn rises_over(rules: &[u8], at: usize, before: Option<usize>) -> bool
    ensures { result ≡ rises (mark_behind rules.now before) (rule_source (drop at rules.now)) }
{
    match before {
        None => true,
        Some(old) => rule_row::sources_rise(rules, old, at),
    }
}

// What is wrong with the row at `at`, if anything, where as many rows may come and `before` is the one before it.
#[tactic(auto, unfolding(definition::specs::RuleFaults::row_fault))]
pub fn row_fault(rules: &[u8], at: usize, left: u32, before: Option<usize>) -> Result<(), RuleFault>
    requires { at ≤ length rules.now }
    ensures { rules_means result ≡ row_fault (walk_at at left (mark_behind rules.now before) rules.now) }
{
    told(rules, at, left, rises_over(rules, at, before))
}

// What a walk finds where it stops: the table's end, or a row that is not right. Its order is not asked again: where nothing
// else is wrong with the row, the order is.
#[tactic(auto, unfolding(crate::specs::Told::stopped_at, base::specs::Pick::pick))]
fn stopped(rules: &[u8], at: usize, left: u32) -> Result<(), RuleFault>
    ensures { rules_means result ≡ stopped_at rules.now at left }
{
    if rules.len() <= at {
        return Ok(());
    }
    told(rules, at, left, false)
}

// What is wrong with a rule table first. No more than `MOST_ROWS` rows, and sources rise. The rows are walked in two halves: a
// function that is called twice stays one by itself, and its loop has all registers.
pub fn check_rules(rules: &[u8]) -> Result<(), RuleFault>
    ensures { rules_means result ≡ rule_fault rules.now }
{
    if !table_blocks::headed(rules) {
        return Err(RuleFault {
            kind: Fault::Length,
            at: 0,
        });
    }
    let half = past_rows(
        rules,
        Walk {
            at: table_blocks::HEAD_BYTES,
            left: HALF,
            old: table_blocks::HEAD_BYTES,
            low: 0,
        },
    );
    if 0 < half.left {
        return stopped(rules, half.at, half.left + HALF);
    }
    let whole = past_rows(
        rules,
        Walk {
            left: half.left + HALF,
            ..half
        },
    );
    stopped(rules, whole.at, whole.left)
}
