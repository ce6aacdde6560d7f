// UTF-8 by RFC 3629: a text's bytes as characters, and a character's bytes.
#![tactic(auto)]

ghost use Rattle.std.specs.Prelude.{◌≡◌, ℕ, ◌+◌, ◌-◌, ◌<◌, ◌≤◌, length, take, drop, set, IfOk};
ghost use Rattle.definition.specs.Utf8.{six, read, decoded, encode, sequence, checked};
ghost use Rattle.definition.specs.Texts.{left_out};
ghost use Rattle.definition.specs.Call.{first_left_out, text_refusal};
ghost use Rattle.utf8.specs.declared.TextFault.TheVariants.{NotUtf8 as BadSequence};
ghost use Rattle.utf8.specs.Read.{char_means, found_means, answered, text_means, Roomy};
ghost use Rattle.utf8.specs.Beginnings.{beginnings};
ghost use Rattle.utf8.specs.Puts.{puts};
ghost use Rattle.utf8.specs.Lines.{line_spaces, spaced};

// Characters of a text, at most.
pub const MOST_CHARACTERS: usize = 4096;

// The spaces that a text stands between: one before it and two after it.
pub const LINE_SPACES: usize = 3;

// A character that was read, and how many bytes it takes.
#[derive(Clone, Copy)]
pub struct Char {
    pub value: u32,
    pub size: usize,
}

// Bytes that are no UTF-8: the offset of the first bad sequence.
#[derive(Clone, Copy)]
pub struct NotUtf8 {
    pub at: usize,
}

// Why a call refuses a text: the offset of a bad sequence, or the position of a character that is left out.
#[derive(Clone, Copy)]
pub enum TextFault {
    NotUtf8 { at: usize },
    TooLong,
    LeftOut { at: usize },
}

impl From<NotUtf8> for TextFault {
    ghost from_gives = { λ fault given. given ≡ BadSequence fault.at };

    fn from(fault: NotUtf8) -> TextFault {
        TextFault::NotUtf8 { at: fault.at }
    }
}

// The bytes of a character: the first `len`.
#[derive(Clone, Copy)]
pub struct Encoded {
    pub bytes: [u8; 4],
    pub len: usize,
}

// The six bits of a continuation byte; 64 for any other byte.
#[tactic(auto, unfolding(definition::specs::Utf8::six, base::specs::Pick::pick))]
pub fn six(b: u32) -> u32
    ensures { result ≡ six b }
{
    match b {
        128..192 => b - 128,
        _ => 64,
    }
}

// A character of `size` bytes: none that fewer could hold, whose lowest is `low`, and a scalar value.
#[tactic(auto, unfolding(crate::specs::Read::char_means, definition::specs::Utf8::checked, definition::specs::Utf8::scalar, base::specs::Pick::pick))]
fn checked(low: u32, size: usize, v: u32) -> Option<Char>
    ensures { char_means result ≡ checked low size v }
{
    if low <= v && matches!(v, 0..=0xD7FF | 0xE000..=0x10FFFF) {
        return Some(Char { value: v, size });
    }
    None
}

// A sequence by its first byte, and the six bits of the three after it.
#[tactic(auto, unfolding(crate::specs::Read::char_means, definition::specs::Utf8::sequence, base::specs::Pick::pick))]
fn sequence(b: u32, x: u32, y: u32, z: u32) -> Option<Char>
    requires { b < 256 }
    ensures { char_means result ≡ sequence b x y z }
{
    if b < 128 {
        return Some(Char { value: b, size: 1 });
    }
    if b < 192 || 64 <= x {
        return None;
    }
    if b < 224 {
        return checked(0x80, 2, (b - 192) * 64 + x);
    }
    if 64 <= y {
        return None;
    }
    if b < 240 {
        return checked(0x800, 3, (b - 224) * 4096 + x * 64 + y);
    }
    if 64 <= z || 248 <= b {
        return None;
    }
    checked(0x10000, 4, (b - 240) * 262144 + x * 4096 + y * 64 + z)
}

// The sequence that starts at `at`.
pub fn read_char(text: &[u8], at: usize) -> Option<Char>
    requires { at < length text.now }
    ensures { char_means result ≡ read (drop at text.now) }
{
    // past the end a byte is 0, which is no continuation byte, so the length is not asked
    let b = base::byte(text, at);
    // most texts have many of these, and nothing after them has to be read
    if b < 128 {
        return Some(Char { value: b, size: 1 });
    }
    let x = six(base::byte(text, at + 1));
    let y = six(base::byte(text, at + 2));
    let z = six(base::byte(text, at + 3));
    sequence(b, x, y, z)
}

// Puts a character at place `n`, where there is one.
fn put(chars: &mut [u32], n: usize, c: u32)
    ensures { chars.new ≡ set chars.old n c }
{
    if n < chars.len() {
        chars[n] = c;
    }
}

// Puts a text's characters into `chars`, up to a bad sequence. Those past its end are counted and go nowhere: a bad
// sequence is named before a text that is too long.
pub fn decode(text: &[u8], chars: &mut [u32]) -> Result<usize, NotUtf8>
    ensures answer { result ≡ answered text.now }
    ensures room { chars.new ≡ puts 0 (decoded text.now) chars.old }
{
    let mut at = 0;
    let mut n = 0;
    // a `while`: each turn moves by the bytes of the character that it read
    while at < text.len() {
        let Some(Char { value, size }) = read_char(text, at) else {
            return Err(NotUtf8 { at });
        };
        put(chars, n, value);
        n += 1;
        at += size;
    }
    Ok(n)
}

// The bytes of a character.
#[tactic(auto, unfolding(definition::specs::Utf8::encode, base::specs::Pick::pick))]
pub fn encode(c: u32) -> Encoded
    requires { c < 0x110000 }
    ensures { (take result.len result.bytes ≡ encode c) × (result.len ≤ 4) }
{
    if c < 0x80 {
        return Encoded {
            bytes: [c as u8, 0, 0, 0],
            len: 1,
        };
    }
    let last = (128 + c % 64) as u8;
    if c < 0x800 {
        return Encoded {
            bytes: [(192 + c / 64) as u8, last, 0, 0],
            len: 2,
        };
    }
    let third = (128 + c / 64 % 64) as u8;
    if c < 0x10000 {
        return Encoded {
            bytes: [(224 + c / 4096) as u8, third, last, 0],
            len: 3,
        };
    }
    let second = (128 + c / 4096 % 64) as u8;
    Encoded {
        bytes: [(240 + c / 262144) as u8, second, third, last],
        len: 4,
    }
}

// How many bytes a character has.
#[tactic(auto, unfolding(definition::specs::Utf8::encode, base::specs::Pick::pick))]
pub fn encoded_len(c: u32) -> usize
    ensures { (result ≡ length (encode c)) × (result ≤ 4) }
{
    match c {
        0..=0x7F => 1,
        0x80..=0x7FF => 2,
        0x800..=0xFFFF => 3,
        _ => 4,
    }
}

// Is a character Tibetan, Braille or a Hangul syllable, which are left out?
#[tactic(auto, unfolding(definition::specs::Texts::left_out))]
pub fn left_out(c: u32) -> bool
    ensures { result ≡ left_out c }
{
    matches!(c, 0x0F00..=0x0FFF | 0x2800..=0x28FF | 0xAC00..=0xD7A3)
}

// Where the first character stands that is left out.
pub fn first_left_out(chars: &[u32]) -> Option<usize>
    ensures { found_means result ≡ first_left_out 0 chars.now }
{
    chars.iter().position(|c| left_out(*c))
}

// As many characters as a text can have at most: those bytes are counted that continue none.
pub fn characters(text: &[u8]) -> usize
    ensures { result ≡ beginnings text.now }
{
    text.iter().filter(|b| six(u32::from(**b)) == 64).count()
}

// What a call needs of its text: the characters, or its refusal. There is room for all characters of a text that is not too long.
pub fn read_text(text: &[u8], chars: &mut [u32]) -> Result<usize, TextFault>
    requires { Roomy text.now (length chars.old) }
    ensures refusal { text_means result ≡ text_refusal text.now }
    ensures count { IfOk result (λ n. n ≡ length (decoded text.now)) }
    ensures room { chars.new ≡ puts 0 (decoded text.now) chars.old }
{
    let n = decode(text, chars)?;
    if MOST_CHARACTERS < n {
        return Err(TextFault::TooLong);
    }
    match first_left_out(&chars[..n]) {
        Some(at) => Err(TextFault::LeftOut { at }),
        None => Ok(n),
    }
}

// What a call needs of its text, with the text between spaces: one before it and two after it, so that a reader need not ask for its ends. Of
// a text that is refused nothing is said of the line.
pub fn read_line(text: &[u8], line: &mut [u32]) -> Result<usize, TextFault>
    requires { (line_spaces ≤ length line.old) × Roomy text.now (length line.old - line_spaces) }
    ensures refusal { text_means result ≡ text_refusal text.now }
    ensures count { IfOk result (λ n. n ≡ length (decoded text.now)) }
    ensures line { IfOk result (λ n. take (n + line_spaces) line.new ≡ spaced (decoded text.now)) }
{
    let end = line.len() - 2;
    let n = read_text(text, &mut line[1..end])?;
    line[0] = 0x20;
    line[n + 1] = 0x20;
    line[n + 2] = 0x20;
    Ok(n)
}
