// A growing romanization, questions about lent bytes, and sets of small letters.
#![tactic(auto)]

ghost use Rattle.std.specs.Prelude.{◌≡◌, ◌++◌, ◌∷◌, ◌+◌, ◌<◌, ◌≤◌, length, take, get_or};
ghost use Rattle.std.proofs.Math.Seq.{slice};
ghost use Rattle.base.specs.Lists.{any, all, starts};
ghost use Rattle.definition.specs.Limits.{most_bytes};
ghost use Rattle.definition.specs.Texts.{lower, last_is};
ghost use Rattle.definition.specs.Expansion.{capitalized};
ghost use Rattle.rom.specs.Rom.{rom, held, Clean};
ghost use Rattle.rom.specs.Sets.{member, between};

// Sets of small letters, bit k for the letter k places after a: a e i o u.
pub const VOWELS: u32 = 0x104111;

// b c d f g h j k l m n p q r s t v w x y z
pub const CONSONANTS: u32 = 0x3efbeee;

// The consonants without w and y.
pub const CLOSING: u32 = 0x2afbeee;

// c f g h k m n q r s t x y
pub const BEFORE_Y: u32 = 0x18f34e4;

// b c d f g h j k l m n p q r s t w z
pub const DOUBLING: u32 = 0x24fbeee;

// The consonants without y.
pub const O_ANG_SIDE: u32 = 0x2efbeee;

// m n g r
pub const PLUS_BEFORE: u32 = 0x23040;

// Bytes of an edge's text, at most.
pub const MOST_BYTES: usize = 606;

// The text is the first `len` bytes; zeros stand behind it. An array with its length beside it, given by value at the two
// steps that the project's documents name, and lent as array and length inside them (docs/DECISIONS.md, ticket 4).
#[derive(Clone, Copy)]
pub struct Rom {
    pub bytes: [u8; MOST_BYTES],
    pub len: usize,
}

// The romanization of a lent text.
pub fn bytes_of(s: &[u8]) -> Rom
    requires { length s.now ≤ most_bytes }
    ensures { result ≡ rom s.now }
{
    let mut bytes = [0u8; MOST_BYTES];
    lent_bytes::put_text(&mut bytes, s);
    Rom {
        bytes,
        len: s.len(),
    }
}

// A text put behind a romanization in its place, the first `n` bytes of an array that is lent whole; the new length is told.
pub fn put_behind(bytes: &mut [u8], n: usize, s: &[u8]) -> usize
    requires { Clean (held bytes.old n) × (n + length s.now ≤ most_bytes) }
    ensures { held bytes.new result ≡ rom (take n bytes.old ++ s.now) }
{
    lent_bytes::put_at(bytes, n, s);
    n + s.len()
}

// A letter put in front of the first `n` bytes of an array, each of which takes the place of the next; the new length is told. By a
// loop, as in `keep`: `copy_within` is a memmove, which the archive for C would need from outside.
pub fn put_front(bytes: &mut [u8], n: usize, letter: u8) -> usize
    requires { Clean (held bytes.old n) × (n < most_bytes) }
    ensures { held bytes.new result ≡ rom (letter ∷ take n bytes.old) }
{
    let mut next = letter;
    for i in 0..n + 1 {
        let old = bytes[i];
        bytes[i] = next;
        next = old;
    }
    n + 1
}

// The byte at a place before `to`; zero elsewhere.
fn byte_before(bytes: &[u8], to: usize, at: usize) -> u8
    requires { to ≤ length bytes.now }
    ensures { result ≡ get_or (take to bytes.now) at 0 }
{
    if at < to {
        return bytes[at];
    }
    0
}

// Of the first `n` bytes of an array those from one place to another, moved to the front, and zeros behind; their number is told.
pub fn keep(bytes: &mut [u8], n: usize, from: usize, to: usize) -> usize
    requires { Clean (held bytes.old n) × (from ≤ to) × (to ≤ n) }
    ensures { held bytes.new result ≡ rom (slice from to (take n bytes.old)) }
{
    for i in 0..n {
        bytes[i] = byte_before(bytes, to, from + i);
    }
    to - from
}

// A capital letter made small.
pub fn lower(c: u8) -> u8
    ensures { result ≡ lower c }
{
    c.to_ascii_lowercase()
}

// Of the first `n` bytes of an array the first stays, and later letters become small.
pub fn make_small(bytes: &mut [u8], n: usize)
    requires { Clean (held bytes.old n) }
    ensures { held bytes.new n ≡ rom (capitalized (take n bytes.old)) }
{
    if n == 0 {
        return;
    }
    bytes[1..n].make_ascii_lowercase();
}

// Does a text start with another?
#[tactic(auto, using(lent_bytes::specs::Library::starts_is))]
pub fn starts_with(s: &[u8], w: &[u8]) -> bool
    ensures { result ≡ starts w.now s.now }
{
    s.starts_with(w)
}

// Is a character in a set?
#[tactic(auto, using(crate::proofs::Past::letter_bit), unfolding(crate::specs::Sets::member))]
pub fn is_in(set: u32, c: u32) -> bool
    ensures { result ≡ member set c }
{
    match c {
        97..=122 => (set >> (c - 97)) & 1 == 1,
        _ => false,
    }
}

// Is a byte in a range?
fn is_between(c: u32, first: u32, last: u32) -> bool
    ensures { result ≡ between first last c }
{
    first <= c && c <= last
}

// Of a text: are all its characters in a set, is any, is the first, is the last?
pub fn all_in(s: &[u8], set: u32) -> bool
    ensures { result ≡ all (member set) s.now }
{
    s.iter().all(|c| is_in(set, u32::from(*c)))
}

pub fn any_in(s: &[u8], set: u32) -> bool
    ensures { result ≡ any (member set) s.now }
{
    s.iter().any(|c| is_in(set, u32::from(*c)))
}

// Is any of its bytes in a range?
pub fn any_between(s: &[u8], first: u32, last: u32) -> bool
    ensures { result ≡ any (between first last) s.now }
{
    s.iter().any(|c| is_between(u32::from(*c), first, last))
}

pub fn last_in(s: &[u8], set: u32) -> bool
    ensures { result ≡ last_is (member set) s.now }
{
    match s.last() {
        Some(c) => is_in(set, u32::from(*c)),
        None => false,
    }
}
