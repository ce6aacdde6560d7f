// Runs calls of standard input, as tests/calls/callfile.py writes them, through the call, and counts those whose answer,
// output or rooms are other than given. Slots, text room and output are full of rubbish before each call.
#![tactic(auto)]

ghost use Rattle.std.specs.Prelude.{◌≡◌, ◌+◌, ◌<◌, length, get_or};
ghost use Rattle.replay.specs.Given.{number_at, zeros, are_numbers, is_right};

use jettyfig::Answer;
use std::io;

// What stands in the rooms before a call.
const RUBBISH: u8 = 165;

// A call that was run: where the next one begins, and whether all was as given. The next begins there either way, so that this is no
// Option.
#[derive(Drop)]
struct Ran {
    next: usize,
    right: bool,
}

// How many calls were run, and how many were not right.
#[derive(Drop)]
struct Tally {
    calls: u64,
    differ: u64,
}

// Four bytes as a number; past the end they are 0.
fn number(input: &[u8], at: usize) -> usize
    ensures { (result ≡ number_at input.now at) × (result < 4294967296) }
{
    base::four(input, at, 0) as usize
}

// A byte; past the end it is 0.
fn byte(input: &[u8], at: usize) -> u8
    ensures { result ≡ get_or input.now at 0 }
{
    input.get(at).copied().unwrap_or(0)
}

// A length and so many bytes behind it.
fn field<'a>(input: &'a [u8], at: usize) -> &'a [u8]
    requires { at < 1000000000000 }
{
    lent_bytes::part_or_none(input, at + 4, number(input, at))
}

// Are all bytes zero?
fn are_zero(s: &[u8]) -> bool
    ensures { result ≡ zeros s.now }
{
    s.iter().all(|b| *b == 0)
}

// Are the numbers of an answer as given at `at`: number, place, length and edges?
fn are_numbers(input: &[u8], at: usize, answer: Answer) -> bool
    requires { at < 1000000000000 }
    ensures { result ≡ are_numbers input.now at answer }
{
    answer.number == base::byte(input, at) as u64
        && (answer.place == number(input, at + 1) as u64
            && (answer.length == number(input, at + 5) as u64
                && answer.edges == number(input, at + 9) as u64))
}

// Is all as given at `at`: the numbers, and behind them the bytes of the output? All else of output, slots and room is zero.
fn is_right(input: &[u8], at: usize, answer: Answer, slots: &[u8], room: &[u8], out: &[u8]) -> bool
    requires { at < 1000000000000 }
    ensures { result ≡ is_right input.now at answer slots.now room.now out.now }
{
    let len = number(input, at + 5);
    if out.len() < len {
        return false;
    }
    are_numbers(input, at, answer)
        && (lent_bytes::part_or_none(input, at + 13, len) == &out[..len]
            && (are_zero(&out[len..]) && (are_zero(slots) && are_zero(room))))
}

// Where a field ends.
fn skip(input: &[u8], at: usize) -> usize
    requires { at < 1000000000000 }
    ensures { (at < result) × (result < at + 4294967300) }
{
    at + 4 + number(input, at)
}

// The call at `at` over rubbish, in rooms as large as it says, and whether its answer, which stands behind its fields, is right.
fn run_in(input: &[u8], at: usize, slots: &mut [u8], room: &mut [u8], out: &mut [u8]) -> Ran
    requires { at < 16777216 }
    ensures { at < result.next }
{
    let rules = at + 16;
    let classes = skip(input, rules);
    let vowels = skip(input, classes);
    let decompositions = skip(input, vowels);
    let code = skip(input, decompositions);
    let text = skip(input, code);
    let answered = skip(input, text);
    slots.fill(RUBBISH);
    room.fill(RUBBISH);
    out.fill(RUBBISH);
    let answer = jettyfig::jettyfig_romanize(
        byte(input, at),
        byte(input, at + 1),
        byte(input, at + 2),
        byte(input, at + 3),
        field(input, rules),
        field(input, classes),
        field(input, vowels),
        field(input, decompositions),
        field(input, code),
        field(input, text),
        slots,
        room,
        out,
    );
    Ran {
        next: answered + 13 + number(input, answered + 5),
        right: is_right(input, answered, answer, slots, room, out),
    }
}

// The call at `at` where its bytes are all there; else it is not right.
fn run_one(input: &[u8], at: usize, slots: &mut [u8], room: &mut [u8], out: &mut [u8]) -> Ran
    requires { at < 16777216 }
    ensures { at < result.next }
{
    let s = number(input, at + 4);
    let r = number(input, at + 8);
    let o = number(input, at + 12);
    if slots.len() < s || room.len() < r || out.len() < o {
        return Ran {
            next: at + 1,
            right: false,
        };
    }
    run_in(input, at, &mut slots[..s], &mut room[..r], &mut out[..o])
}

// Room for slots, text and output, and room for the calls. Each is apart so that its user knows its length alone.
fn lent_room() -> [u8; 400000] {
    [0u8; 400000]
}

fn calls_room() -> [u8; 4900000] {
    [0u8; 4900000]
}

// All calls, one behind the other.
fn run_all(input: &[u8]) -> Tally
    requires { length input.now < 16777216 }
{
    let mut slots = lent_room();
    let mut room = lent_room();
    let mut out = lent_room();
    let mut at: usize = 0;
    let mut calls: u64 = 0;
    let mut differ: u64 = 0;
    // a `while`: each turn moves by the bytes of the call that was run
    while at < input.len() {
        let ran = run_one(input, at, &mut slots, &mut room, &mut out);
        if !ran.right {
            differ += 1;
        }
        calls += 1;
        at = ran.next;
    }
    Tally { calls, differ }
}

fn main(rt: HostRuntime) -> io::Result<()> {
    let mut input = calls_room();
    let n = lent_input::read_full(&mut rt.reader(), &mut input)?;
    let Tally { calls, differ } = run_all(&input[..n]);
    println!(rt; "{calls} calls, {differ} differ")
}
