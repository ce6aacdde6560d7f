// Lent bytes: a text put at a place, a part, two parts compared, and clearing.
#![tactic(auto)]

ghost use Rattle.std.specs.Prelude.{◌≡◌, ◌++◌, ◌+◌, ◌≤◌, length, take, drop, replicate};
ghost use Rattle.base.specs.Lists.{same};
ghost use Rattle.lent_bytes.specs.Puts.{put_at};
ghost use Rattle.lent_bytes.specs.Parts.{part_or_none};

// Copies a text to the front of what is lent. By a loop: `copy_from_slice` becomes a memmove where the compiler does not know that the
// two lie apart, and the archive for C would need that from outside.
pub fn put_text(room: &mut [u8], text: &[u8])
    requires { length text.now ≤ length room.old }
    ensures { room.new ≡ text.now ++ drop (length text.now) room.old }
{
    for i in 0..text.len() {
        room[i] = text[i];
    }
}

// Puts a text at a place: the writer is lent the part that starts there.
pub fn put_at(room: &mut [u8], at: usize, text: &[u8])
    requires { at + length text.now ≤ length room.old }
    ensures { room.new ≡ put_at at text.now room.old }
{
    put_text(&mut room[at..], text);
}

// The `len` bytes from a place on.
pub fn part(s: &[u8], at: usize, len: usize) -> &[u8]
    requires { at + len ≤ length s.now }
    ensures { result.now ≡ take len (drop at s.now) }
{
    &s[at..at + len]
}

// The `len` bytes from a place on; none where they run past the end.
pub fn part_or_none(s: &[u8], at: usize, len: usize) -> &[u8]
    ensures { result.now ≡ part_or_none s.now at len }
{
    if s.len() < at || s.len() - at < len {
        return &[];
    }
    part(s, at, len)
}

// Are two texts equal?
#[tactic(auto, using(crate::specs::Library::same_texts))]
pub fn same(a: &[u8], b: &[u8]) -> bool
    ensures { result ≡ same a.now b.now }
{
    a == b
}

// All of what is lent becomes zero.
pub fn clear(s: &mut [u8])
    ensures { s.new ≡ replicate (length s.old) 0 }
{
    s.fill(0);
}
