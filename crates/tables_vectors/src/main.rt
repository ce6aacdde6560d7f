// Runs the checks of the four tables on the vectors of standard input, which tests/tables/vectors.py writes, and counts
// those whose answer is another than the one given.
#![tactic(auto)]

ghost use Rattle.std.specs.Prelude.{◌≡◌, ◌+◌, ◌<◌, ◌≤◌, length, get_or, drop, replicate};
ghost use Rattle.base.specs.Big.{be3};
ghost use Rattle.definition.specs.Refusals.{placed, refused_decompositions};
ghost use Rattle.definition.specs.DecompositionRows.{decomposition_fault};
ghost use Rattle.table_blocks.specs.Faults.{table_means};
ghost use Rattle.rule_table_check.specs.Told.{rules_means};
ghost use Rattle.rule_table.specs.Index.{index_entries};
ghost use Rattle.tables_vectors.specs.Given.{judged_means, fault_of, is_given, is_right};

use rule_row_faults::RuleFault;
use std::io;
use table_blocks::TableFault;

// The numbers that refuse a class table, a vowel table and a decomposition table.
const REFUSED_CLASSES: u64 = 3;

const REFUSED_VOWELS: u64 = 4;

const REFUSED_DECOMPOSITIONS: u64 = 13;

// A table that is refused: the number that refuses it, and the place of its fault.
#[derive(Clone, Copy)]
struct Refused {
    number: u64,
    at: usize,
}

// A vector that was run: how many bytes it takes, and whether all was as given.
#[derive(Drop)]
struct Ran {
    size: usize,
    right: bool,
}

// How many vectors were run, and how many were not right.
#[derive(Drop)]
struct Tally {
    vectors: u64,
    differ: u64,
}

// A byte of the vectors, and 0 past their end.
fn byte(input: &[u8], i: usize) -> usize
    ensures { (result ≡ get_or input.now i 0) × (result < 256) }
{
    base::byte(input, i) as usize
}

// A length or a place in three bytes.
fn three(input: &[u8], at: usize) -> usize
    ensures { (result ≡ be3 (drop at input.now) 0) × (result < 0x1000000) }
{
    base::three(input, at, 0) as usize
}

// A rule table has its faults' own numbers, another table one.
fn of_rules(read: Result<(), RuleFault>) -> Result<(), Refused>
    ensures { judged_means result ≡ rules_means read }
{
    match read {
        Ok(()) => Ok(()),
        Err(fault) => Err(Refused {
            number: fault.kind.number(),
            at: fault.at,
        }),
    }
}

#[tactic(auto, unfolding(definition::specs::Refusals::placed, table_blocks::specs::Faults::table_means))]
fn of_table(number: u64, read: Result<(), TableFault>) -> Result<(), Refused>
    ensures { judged_means result ≡ placed number (table_means read) }
{
    match read {
        Ok(()) => Ok(()),
        Err(fault) => Err(Refused {
            number,
            at: fault.at,
        }),
    }
}

// The index that the check of a decomposition table fills.
fn no_index() -> [u32; table_decompositions::INDEX_ENTRIES]
    ensures { result ≡ replicate index_entries 0 }
{
    [0u32; table_decompositions::INDEX_ENTRIES]
}

fn checked_decompositions(table: &[u8]) -> Result<(), Refused>
    ensures { judged_means result ≡ placed refused_decompositions (decomposition_fault table.now) }
{
    let mut index = no_index();
    let read = table_decompositions::check_decompositions(table, &mut index);
    of_table(REFUSED_DECOMPOSITIONS, read)
}

// What the check says of a table: 0 rules, 1 classes, 2 vowels, 3 decompositions.
#[tactic(auto, unfolding(crate::specs::Given::fault_of, base::specs::Pick::pick))]
fn checked(kind: usize, table: &[u8]) -> Result<(), Refused>
    ensures { judged_means result ≡ fault_of kind table.now }
{
    match kind {
        0 => of_rules(rule_table_check::check_rules(table)),
        1 => of_table(REFUSED_CLASSES, table_classes::check_classes(table)),
        2 => of_table(REFUSED_VOWELS, table_vowels::check_vowels(table)),
        _ => checked_decompositions(table),
    }
}

// Is the answer the one given: 0 and no place, or the number that refuses and its place?
#[tactic(auto, unfolding(crate::specs::Given::is_given))]
fn is_answer(judged: Result<(), Refused>, number: usize, place: usize) -> bool
    ensures { result ≡ is_given (judged_means judged) number place }
{
    match judged {
        Ok(()) => number == 0 && place == 0,
        Err(refused) => refused.number == number as u64 && refused.at == place,
    }
}

// The answer of the table at `at`, which is `len` bytes long and whose answer stands behind it. A fifth kind has none.
fn is_right(input: &[u8], kind: usize, at: usize, len: usize) -> bool
    requires { (at + len ≤ length input.now) × (at < 0x10000000) × (len < 0x10000000) }
    ensures { result ≡ is_right input.now kind at len }
{
    if 3 < kind {
        return false;
    }
    let judged = checked(kind, lent_bytes::part(input, at, len));
    let end = at + len;
    is_answer(judged, byte(input, end), three(input, end + 1))
}

// One vector. Where it runs past the end it is not right, and it is the last.
fn run_one(input: &[u8], at: usize) -> Ran
    requires { (at < length input.now) × (at < 0x1000000) }
    ensures { (0 < result.size) × (result.size < 0x2000000) }
{
    let len = three(input, at + 1);
    let size = 4 + len + 4;
    if input.len() < at + size {
        return Ran { size, right: false };
    }
    Ran {
        size,
        right: is_right(input, byte(input, at), at + 4, len),
    }
}

// All vectors, one behind the other.
fn run_all(input: &[u8]) -> Tally
    requires { length input.now < 0x1000000 }
{
    let mut at = 0;
    let mut vectors = 0;
    let mut differ = 0;
    // a `while`: each turn moves by the bytes of the vector that was run
    while at < input.len() {
        let ran = run_one(input, at);
        if !ran.right {
            differ += 1;
        }
        vectors += 1;
        at += ran.size;
    }
    Tally { vectors, differ }
}

// Room for the vectors, in a function of its own: `main` knows its length alone.
fn room() -> [u8; 2200000] {
    [0u8; 2200000]
}

fn main(rt: HostRuntime) -> io::Result<()> {
    let mut input = room();
    let n = lent_input::read_full(&mut rt.reader(), &mut input)?;
    let Tally { vectors, differ } = run_all(&input[..n]);
    println!(rt; "{vectors} vectors, {differ} differ")
}
