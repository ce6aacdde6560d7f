// Lists the rows of the rule table on standard input through the reader: offset, source, target and flags, a line for each; then
// how many rows are right, and the first fault where there is one.
//
// A function that writes answers the error of a write that failed, as the writer gave it, and no other. What was written before
// the failure stays, and nothing is written after it.
#![tactic(auto)]

ghost use Rattle.std.specs.Prelude.{◌<◌};

use rule_row_faults::{RowParts, RuleFault};
use std::io;
use std::io::Write;

// Room for a table, in a function of its own: `main` knows its length alone.
fn table_room() -> [u8; 1048576] {
    [0u8; 1048576]
}

// The characters of a row's source, each as U+ and its number.
fn print_source<W: Write>(out: &mut W, table: &[u8], at: usize, count: usize) -> io::Result<()>
    requires { count < 256 }
{
    for i in 0..count {
        let c = base::three(table, at, 6 + 3 * i);
        write!(out, " U+{c:04x}")?;
    }
    Ok(())
}

// The target of a row at `o` of it: a length byte and the text.
fn print_target<W: Write>(out: &mut W, row: &[u8], o: usize) -> io::Result<()>
    requires { o < 65536 }
{
    out.write_all(b" \"")?;
    out.write_all(lent_bytes::part_or_none(row, o + 1, base::byte(row, o) as usize))?;
    out.write_all(b"\"")
}

// One row: its offset, source, target and flags.
fn print_row<W: Write>(out: &mut W, table: &[u8], at: usize, parts: RowParts) -> io::Result<()> {
    write!(out, "{at}")?;
    if parts.source < 256 {
        print_source(out, table, at, parts.source)?;
    }
    if rule_row::flag(table, at, rule_row::TARGET_BIT) {
        if parts.target < 65536 {
            let row = lent_bytes::part_or_none(table, at, parts.size);
            print_target(out, row, parts.target)?;
        }
    } else {
        out.write_all(b" none")?;
    }
    let flags = base::at(table, at, 2);
    writeln!(out, " {flags:02x}")
}

// Lists the row at an offset, and answers whether one stood there. What is wrong with it else is said at the end.
fn list_row<W: Write>(out: &mut W, table: &[u8], at: usize) -> io::Result<bool> {
    let Ok(Some(parts)) = rule_reader::read_at(table, at) else {
        return Ok(false);
    };
    print_row(out, table, at, parts)?;
    Ok(true)
}

// All rows. There are fewer than bytes, so the turns are enough.
fn list<W: Write>(out: &mut W, table: &[u8]) -> io::Result<()> {
    let mut at = rule_reader::start(table);
    for _ in 0..table.len() {
        if !list_row(out, table, at)? {
            break;
        }
        at = rule_reader::step_from(table, at);
    }
    Ok(())
}

// The first fault behind `rows` right rows: its kind, its place, and the row at `at`, in which it lies. No row stands before
// `HEAD_BYTES`: a fault there is the header's.
fn print_fault<W: Write>(out: &mut W, rows: usize, at: usize, fault: RuleFault) -> io::Result<()> {
    if fault.at < table_blocks::HEAD_BYTES {
        return writeln!(out, "{rows} rows: the header is faulty");
    }
    let words = rule_fault_words::fault_words(fault.kind);
    let place = fault.at;
    writeln!(
        out,
        "{rows} rows, then {words} at {place}, in the row at {at}"
    )
}

// How many rows are right, and the first fault.
fn conclude<W: Write>(out: &mut W, table: &[u8]) -> io::Result<()> {
    let walked = rule_reader::walk_rules(table);
    let rows = walked.rows;
    match walked.read {
        Ok(()) => writeln!(out, "{rows} rows"),
        Err(fault) => print_fault(out, rows, walked.at, fault),
    }
}

fn main(rt: HostRuntime) -> io::Result<()> {
    let mut table = table_room();
    let n = lent_input::read_full(&mut rt.reader(), &mut table)?;
    let mut out = rt.stdout();
    list(&mut out, &table[..n])?;
    conclude(&mut out, &table[..n])
}
