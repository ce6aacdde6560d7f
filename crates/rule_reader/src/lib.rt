// Rule rows walked by a reader that keeps the rule table and its offset together.
//
// Each method of such a reader is thin: what decides anything is a function over the plain table and offset (`row_at`,
// `next_at`, `left_at`). `start`, `read_at` and `step_from` make the reader inside, so that a caller, as `walk_rules` is, holds
// table and offset alone.
#![tactic(auto)]

ghost use Rattle.std.specs.Prelude.{◌≡◌, ◌-◌, length};
ghost use Rattle.definition.specs.Blocks.{head_bytes};
ghost use Rattle.definition.specs.RuleFaults.{rule_fault};
ghost use Rattle.rule_table_check.specs.Told.{rules_means};
ghost use Rattle.rule_reader.specs.Rows.{here_means, row_here, next_row, past_rows, right_rows};

use rule_row_faults::{Fault, RowParts, RuleFault};

// Rows of a table at most (document 01).
const MOST_ROWS: u32 = table_blocks::MOST_ROWS;

// A rule table, and the offset of a row.
#[derive(Clone, Copy)]
pub struct RuleReader<'a> {
    pub table: &'a [u8],
    pub at: usize,
}

// What the walk over a table finds: how many rows are right one after another, where the row behind them stands, and what is
// wrong with it, if anything. A faulty header is a fault before any row.
#[derive(Clone, Copy)]
pub struct Walked {
    pub rows: usize,
    pub at: usize,
    pub read: Result<(), RuleFault>,
}

// What stands at an offset: a row's parts, none at the table's end, or the row's first fault with its offset in the table.
pub fn row_at(table: &[u8], at: usize) -> Result<Option<RowParts>, RuleFault>
    ensures { here_means result ≡ row_here table.now at }
{
    if table.len() <= at {
        return Ok(None);
    }
    match rule_row_faults::read_row(table, at) {
        Ok(parts) => Ok(Some(parts)),
        Err(fault) => Err(RuleFault {
            kind: fault.kind,
            at: at + fault.at,
        }),
    }
}

// Where the next row begins; the table's end is not gone past.
pub fn next_at(table: &[u8], at: usize) -> usize
    ensures { result ≡ next_row table.now at }
{
    if table.len() <= at {
        return at;
    }
    at + rule_row::size(table, at).min(table.len() - at)
}

// How many bytes are left.
pub fn left_at(table: &[u8], at: usize) -> usize
    ensures { result ≡ length table.now - at }
{
    table.len().saturating_sub(at)
}

impl<'a> RuleReader<'a> {
    // A reader at the first row, which stands behind the header.
    pub fn first_row(table: &'a [u8]) -> RuleReader<'a>
        ensures { (result.table ≡ table.entry) × (result.at ≡ head_bytes) }
    {
        RuleReader {
            table,
            at: table_blocks::HEAD_BYTES,
        }
    }

    // The row at which a reader stands.
    pub fn row(self) -> Result<Option<RowParts>, RuleFault>
        ensures { here_means result ≡ row_here self.entry.table.now self.entry.at }
    {
        row_at(self.table, self.at)
    }

    // The reader moved past the row.
    pub fn past(self) -> RuleReader<'a>
        ensures { (result.table ≡ self.entry.table) × (result.at ≡ next_row self.entry.table.now self.entry.at) }
    {
        RuleReader {
            table: self.table,
            at: next_at(self.table, self.at),
        }
    }

    // What is left of the table, in bytes.
    pub fn left(self) -> usize
        ensures { result ≡ length self.entry.table.now - self.entry.at }
    {
        left_at(self.table, self.at)
    }
}

// Where the first row stands.
pub fn start(table: &[u8]) -> usize
    ensures { result ≡ head_bytes }
{
    RuleReader::first_row(table).at
}

// What a reader finds at an offset.
pub fn read_at(table: &[u8], at: usize) -> Result<Option<RowParts>, RuleFault>
    ensures { here_means result ≡ row_here table.now at }
{
    RuleReader { table, at }.row()
}

// Where a reader at an offset stands past the row.
pub fn step_from(table: &[u8], at: usize) -> usize
    ensures { result ≡ next_row table.now at }
{
    RuleReader { table, at }.past().at
}

// The whole table, row by row: the first fault, how many rows are right before it, and where the row behind them stands. No more
// than `MOST_ROWS` rows, and sources rise.
pub fn walk_rules(table: &[u8]) -> Walked
    ensures { (rules_means result.read ≡ rule_fault table.now)
        × (result.rows ≡ right_rows table.now)
        × (result.at ≡ past_rows table.now head_bytes (right_rows table.now)) }
{
    if !table_blocks::headed(table) {
        return Walked {
            rows: 0,
            at: table_blocks::HEAD_BYTES,
            read: Err(RuleFault {
                kind: Fault::Length,
                at: 0,
            }),
        };
    }
    let mut at = start(table);
    let mut rows: u32 = 0;
    let mut before = None;
    // the offset moves by each row's own size, so no `for` is plainer
    while at < table.len() {
        if let Err(fault) = rule_table_check::row_fault(table, at, MOST_ROWS - rows, before) {
            return Walked {
                rows: rows as usize,
                at,
                read: Err(fault),
            };
        }
        before = Some(at);
        at = step_from(table, at);
        rows += 1;
    }
    Walked {
        rows: rows as usize,
        at,
        read: Ok(()),
    }
}
