// Document 01's sample program: all of standard input is the text, mode 1, the sample tables, no decompositions and no code;
// the output in lower-case hex and a line end. A refusal goes to standard error with its number and place.
//
// A function that writes answers the error of a write that failed, as the writer gave it, and no other. What was written before
// the failure stays, and nothing is written after it.
#![tactic(auto)]

ghost use Rattle.std.specs.Prelude.{◌≡◌, ◌<◌};
ghost use Rattle.sample.specs.Hex.{hex_digit};

use jettyfig::Answer;
use std::io;
use std::io::Write;

// The sample tables, as tests/generate/sample.py makes them.
// Rules.
const RULES: [u8; 325] = [
    1, 0, 0, 1, 64, 0, 12, 32, 0, 0, 1, 0, 4, 22, 0, 2, 90, 72, 0, 0, 12, 32, 0, 0, 1, 0, 4, 54, 0,
    2, 122, 104, 0, 0, 11, 33, 0, 1, 1, 0, 4, 54, 0, 1, 106, 0, 0, 12, 33, 0, 1, 1, 0, 4, 54, 0, 2,
    100, 106, 0, 0, 13, 32, 0, 0, 1, 0, 4, 64, 0, 3, 43, 110, 103, 0, 0, 13, 32, 0, 0, 1, 0, 4, 65,
    0, 3, 43, 97, 114, 0, 0, 11, 32, 0, 0, 1, 0, 9, 21, 0, 1, 107, 0, 0, 11, 32, 0, 0, 1, 0, 9, 36,
    0, 1, 116, 0, 0, 11, 32, 0, 0, 1, 0, 9, 63, 0, 1, 105, 0, 0, 10, 32, 0, 0, 1, 0, 9, 77, 0, 0,
    0, 0, 11, 32, 0, 0, 1, 0, 14, 1, 0, 1, 107, 0, 0, 11, 32, 0, 0, 1, 0, 14, 45, 0, 1, 111, 0, 0,
    11, 32, 0, 0, 1, 0, 14, 50, 0, 1, 97, 0, 0, 11, 32, 0, 0, 1, 0, 14, 64, 0, 1, 101, 0, 0, 18,
    32, 0, 0, 3, 0, 14, 64, 0, 32, 19, 0, 14, 50, 0, 2, 97, 111, 0, 0, 11, 32, 0, 0, 1, 0, 23, 128,
    0, 1, 107, 0, 0, 12, 32, 0, 0, 1, 0, 23, 132, 0, 2, 110, 103, 0, 0, 11, 32, 0, 0, 1, 0, 23,
    153, 0, 1, 121, 0, 0, 12, 32, 0, 0, 1, 0, 48, 75, 0, 2, 107, 97, 0, 0, 12, 32, 0, 0, 1, 0, 48,
    77, 0, 2, 107, 105, 0, 0, 13, 32, 0, 0, 1, 0, 48, 97, 0, 3, 99, 104, 105, 0, 0, 13, 32, 0, 0,
    1, 0, 48, 99, 0, 3, 116, 115, 117, 0, 0, 12, 32, 0, 0, 1, 0, 48, 131, 0, 2, 121, 97, 0,
];

// Classes.
const CLASSES: [u8; 143] = [
    1, 0, 0, 0, 138, 0, 0, 32, 7, 0, 0, 0, 4, 22, 1, 7, 0, 0, 4, 54, 1, 7, 0, 0, 4, 64, 1, 7, 0, 0,
    4, 65, 1, 7, 0, 0, 9, 21, 1, 5, 0, 0, 9, 36, 1, 5, 0, 0, 9, 63, 3, 5, 1, 0, 9, 77, 2, 5, 8, 0,
    14, 1, 1, 1, 0, 0, 14, 45, 1, 1, 0, 0, 14, 50, 1, 1, 0, 0, 14, 64, 1, 1, 64, 0, 14, 72, 2, 1,
    32, 0, 23, 128, 1, 6, 0, 0, 23, 132, 1, 6, 0, 0, 23, 153, 1, 6, 0, 0, 48, 75, 1, 3, 0, 0, 48,
    77, 1, 3, 0, 0, 48, 97, 1, 3, 0, 0, 48, 99, 1, 3, 0, 0, 48, 131, 1, 3, 0, 0, 48, 252, 1, 0, 0,
];

// Vowels.
const VOWELS: [u8; 13] = [1, 0, 0, 0, 8, 5, 0, 1, 97, 6, 0, 1, 97];

// Decompositions: none.
const DECOMPOSITIONS: [u8; 5] = [1, 0, 0, 0, 0];

// A digit in lower-case hex.
fn digit(x: u8) -> u8
    requires { x < 16 }
    ensures { result ≡ hex_digit x }
{
    if x < 10 {
        return 48 + x;
    }
    87 + x
}

// The first `n` bytes in hex, two digits for each, and a line end. Both digits go out in one write: standard output has no buffer, and
// `{b:02x}` would write the 0 before a small byte by itself.
fn print_hex<W: Write>(out: &mut W, bytes: &[u8], n: usize) -> io::Result<()> {
    for b in bytes.iter().take(n) {
        out.write_all(&[digit(*b / 16 % 16), digit(*b % 16)])?;
    }
    out.write_all(b"\n")
}

fn main(rt: HostRuntime) -> io::Result<()> {
    let mut text = [0u8; 65536];
    let n = lent_input::read_full(&mut rt.reader(), &mut text)?;
    let mut slots = [0u8; 104448];
    let mut room = [0u8; 65536];
    let mut out = [0u8; 65536];
    let Answer {
        number,
        place,
        length,
        edges: _,
    } = jettyfig::jettyfig_romanize(
        1,
        0,
        0,
        0,
        &RULES,
        &CLASSES,
        &VOWELS,
        &DECOMPOSITIONS,
        b"",
        &text[..n],
        &mut slots,
        &mut room,
        &mut out,
    );
    if number == 0 {
        return print_hex(&mut rt.stdout(), &out, length as usize);
    }
    eprintln!(rt; "refused with {number} at {place}")
}
