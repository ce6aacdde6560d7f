// Runs utf8::decode on the vectors of standard input, which tests/utf8/vectors.py writes, and counts those whose answer
// is another than the one given.
#![tactic(auto)]

ghost use Rattle.std.specs.Prelude.{◌≡◌, ◌+◌, ◌<◌, ◌≤◌, length, get_or, drop};
ghost use Rattle.base.specs.Big.{be3};
ghost use Rattle.utf8_vectors.specs.Given.{is_given, is_place, are_places, is_right};

use std::io;
use utf8::NotUtf8;

// What stands in `chars` where no character was put.
const EMPTY: u32 = 7;

// The vectors of tables_vectors are run alike; each program stands alone, without a crate for the two.
//
// A vector that was run: how many bytes it takes, and whether all was as given.
#[derive(Drop)]
struct Ran {
    size: usize,
    right: bool,
}

// How many vectors were run, and how many were not right.
#[derive(Drop)]
struct Tally {
    vectors: u64,
    differ: u64,
}

// A byte of the vectors, and 0 past their end.
fn byte(input: &[u8], i: usize) -> usize
    ensures { (result ≡ get_or input.now i 0) × (result < 256) }
{
    base::byte(input, i) as usize
}

// A character in three bytes.
fn character(input: &[u8], at: usize) -> usize
    ensures { result ≡ be3 (drop at input.now) 0 }
{
    base::three(input, at, 0) as usize
}

// Is the answer the one given: 0 and the number of characters, or 1 and the offset of the bad sequence?
#[tactic(auto, unfolding(crate::specs::Given::is_given))]
fn is_answer(answer: Result<usize, NotUtf8>, kind: usize, number: usize) -> bool
    ensures { result ≡ is_given answer kind number }
{
    match answer {
        Ok(n) => kind == 0 && n == number,
        Err(bad) => kind == 1 && bad.at == number,
    }
}

// Does a place hold the character given for it, or nothing where none is given?
#[tactic(auto, unfolding(crate::specs::Given::is_place, base::specs::Pick::pick))]
fn is_place(input: &[u8], at: usize, count: usize, i: usize, c: u32) -> bool
    requires { (at < 0x80000000) × (i < 0x10000000) }
    ensures { result ≡ is_place input.now at count i c }
{
    if i < count {
        return c as usize == character(input, at + 3 * i);
    }
    c == EMPTY
}

// Are these the characters given, and nothing after them?
fn are_chars(input: &[u8], at: usize, count: usize, chars: &[u32]) -> bool
    requires { (at < 0x80000000) × (length chars.now < 0x10000000) }
    ensures { result ≡ are_places input.now at count 0 chars.now }
{
    for (i, c) in chars.iter().enumerate() {
        if !is_place(input, at, count, i, *c) {
            return false;
        }
    }
    true
}

// The answer and the characters of the text at `at`, which is `len` bytes long and whose answer stands behind it.
fn is_right(input: &[u8], at: usize, len: usize) -> bool
    requires { (at + len ≤ length input.now) × (at < 0x10000000) × (len < 256) }
    ensures { result ≡ is_right input.now at len }
{
    let mut chars = [EMPTY; 16];
    let answer = utf8::decode(lent_bytes::part(input, at, len), &mut chars);
    let end = at + len;
    is_answer(answer, byte(input, end), byte(input, end + 1))
        && are_chars(input, end + 3, byte(input, end + 2), &chars)
}

// One vector. Where it runs past the end it is not right.
fn run_one(input: &[u8], at: usize) -> Ran
    requires { (at < length input.now) × (at < 0x1000000) }
    ensures { (0 < result.size) × (result.size < 0x1000) }
{
    let text = at + 1;
    let len = byte(input, at);
    if input.len() < text + len {
        return Ran {
            size: 1,
            right: false,
        };
    }
    let size = 1 + len + 3 + 3 * byte(input, text + len + 2);
    Ran {
        size,
        right: is_right(input, text, len),
    }
}

// All vectors, one behind the other.
fn run_all(input: &[u8]) -> Tally
    requires { length input.now < 0x1000000 }
{
    let mut at = 0;
    let mut vectors = 0;
    let mut differ = 0;
    // a `while`: each turn moves by the bytes of the vector that was run
    while at < input.len() {
        let ran = run_one(input, at);
        if !ran.right {
            differ += 1;
        }
        vectors += 1;
        at += ran.size;
    }
    Tally { vectors, differ }
}

fn main(rt: HostRuntime) -> io::Result<()> {
    let mut input = [0u8; 200000];
    let n = lent_input::read_full(&mut rt.reader(), &mut input)?;
    let Tally { vectors, differ } = run_all(&input[..n]);
    println!(rt; "{vectors} vectors, {differ} differ")
}
