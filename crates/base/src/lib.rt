// Bytes and big-endian numbers of lent slices. Past the end a byte is 0, as the definition reads it, so that no reader
// has to ask for the length.
#![tactic(auto)]

ghost use Rattle.std.specs.Prelude.{◌≡◌, ◌+◌, ◌<◌, length, get_or, drop};
ghost use Rattle.base.specs.Big.{offset_limit, be2, be3, be4};
ghost use Rattle.base.specs.Bits.{flagged};

fn wide(x: u8) -> u32
    ensures { (result ≡ x) × (result < 256) }
{
    x as u32
}

// The byte at a place.
pub fn byte(s: &[u8], at: usize) -> u32
    ensures { (result ≡ get_or s.now at 0) × (result < 256) }
{
    if at < s.len() {
        return wide(s[at]);
    }
    0
}

// The byte at `i`, counted from the place `row` on.
pub fn at(s: &[u8], row: usize, i: usize) -> u32
    ensures { (result ≡ get_or (drop row s.now) i 0) × (result < 256) }
{
    if s.len() <= row {
        return 0;
    }
    if s.len() - row <= i {
        return 0;
    }
    byte(s, row + i)
}

// Numbers of two, three and four bytes there. An offset in a row is small. Where all of the bytes are there, they are read
// one beside the other, which a compiler makes one load; at the end of the slice each is asked for by itself.
pub fn two(s: &[u8], row: usize, i: usize) -> u32
    requires { i < offset_limit }
    ensures { (result ≡ be2 (drop row s.now) i) × (result < 65536) }
{
    if row < s.len() {
        if i + 1 < s.len() - row {
            let a = row + i;
            return wide(s[a]) * 256 + wide(s[a + 1]);
        }
    }
    at(s, row, i) * 256 + at(s, row, i + 1)
}

pub fn three(s: &[u8], row: usize, i: usize) -> u32
    requires { i < offset_limit }
    ensures { (result ≡ be3 (drop row s.now) i) × (result < 16777216) }
{
    if row < s.len() {
        if i + 2 < s.len() - row {
            return three_there(s, row, i);
        }
    }
    two(s, row, i) * 256 + at(s, row, i + 2)
}

pub fn four(s: &[u8], row: usize, i: usize) -> u64
    requires { i < offset_limit }
    ensures { (result ≡ be4 (drop row s.now) i) × (result < 4294967296) }
{
    if row < s.len() {
        if i + 3 < s.len() - row {
            return four_there(s, row, i) as u64;
        }
    }
    three(s, row, i) as u64 * 256 + at(s, row, i + 3) as u64
}

// The byte and the numbers at `i`, counted from the place `row` on, for those who know that all of the bytes are there.
pub fn at_there(s: &[u8], row: usize, i: usize) -> u32
    requires { row + i < length s.now }
    ensures { (result ≡ get_or (drop row s.now) i 0) × (result < 256) }
{
    wide(s[row + i])
}

pub fn three_there(s: &[u8], row: usize, i: usize) -> u32
    requires { row + i + 2 < length s.now }
    ensures { (result ≡ be3 (drop row s.now) i) × (result < 16777216) }
{
    let a = row + i;
    wide(s[a]) * 65536 + wide(s[a + 1]) * 256 + wide(s[a + 2])
}

pub fn four_there(s: &[u8], row: usize, i: usize) -> u32
    requires { row + i + 3 < length s.now }
    ensures { (result ≡ be4 (drop row s.now) i) × (result < 4294967296) }
{
    let a = row + i;
    wide(s[a]) * 16777216 + wide(s[a + 1]) * 65536 + wide(s[a + 2]) * 256 + wide(s[a + 3])
}

// Bit `k` of a byte, by a shift and a mask.
pub fn bit(flags: u32, k: u32) -> bool
    requires { k < 8 }
    ensures { result ≡ flagged flags k }
{
    (flags >> k) & 1 == 1
}
