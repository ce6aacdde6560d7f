// Edges in lent slots, their texts in lent text room (edge.rs, lattice/mod.rs): reading and adding them.
#![tactic(auto)]

ghost use Rattle.std.specs.Prelude.{◌≡◌, false, ◌&&◌, ◌+◌, ◌≤◌, ◌<◌, eqb, length, drop};
ghost use Rattle.definition.specs.Limits.{slot_bytes};
ghost use Rattle.definition.specs.Edges.{alike};
ghost use Rattle.utf8.specs.Encodings.{TextBytes};
ghost use Rattle.lent_bytes.specs.Puts.{put_at};
ghost use Rattle.edge.specs.Slots.{two_bytes, length_of, bytes_of, edge_by, numbers_of, edge_of, edges_of, slot_of};
ghost use Rattle.edge.specs.Stored.{Slot};
ghost use Rattle.edge.specs.Adding.{there, Adds, Addable};
ghost use Rattle.edge.specs.Asked.{Readable};

// Annotations by their numbers in a listing: plain, with a core, a tail, expanded, a deleted character.
pub const ROM: u8 = 1;

pub const CORE: u8 = 2;

pub const TAIL: u8 = 3;

pub const EXPANDED: u8 = 4;

pub const DELETED: u8 = 5;

// A fallback: by simple search, of the categories Mn, Cf, Co and Zs, or the character itself.
pub const SINGLE: u8 = 6;

pub const MN: u8 = 7;

pub const CF: u8 = 8;

pub const CO: u8 = 9;

pub const ZS: u8 = 10;

pub const ORIG: u8 = 11;

// An alternative of a rule, an end-of-syllable target where the target was taken, and a target where the end-of-syllable
// target was.
pub const ALT: u8 = 12;

pub const ALT2: u8 = 13;

pub const ALT3: u8 = 14;

// A character read by those that it stands for.
pub const DECOMP: u8 = 15;

// No annotation, while nothing has been expanded.
pub const UNTOUCHED: u8 = 0;

// A slot's bytes, and where in it an edge's start, end, offset of the text, length of the text, annotation and core
// length stand (specs Slots).
pub const SLOT_BYTES: usize = 12;

pub const FROM: usize = 0;

pub const TO: usize = 2;

const OFFSET: usize = 4;

const LEN: usize = 8;

const NOTE: usize = 10;

const CORE_LEN: usize = 11;

// An edge without its text: start, end, annotation and core length.
#[derive(Clone, Copy)]
pub struct Numbers {
    pub from: usize,
    pub to: usize,
    pub note: u8,
    pub core: u8,
}

// How many edges there are and how much room they take; and how many of the first can't equal a new one, since they all
// start elsewhere: it is compared only with those behind them.
#[derive(Clone, Copy)]
pub struct Filled {
    pub count: usize,
    pub used: usize,
    pub since: usize,
}

// How many edges there are now, and how much room they take.
#[derive(Clone, Copy)]
pub struct Taken {
    pub count: usize,
    pub used: usize,
}

// An edge, with its start, found no slot, or a slot but not enough room.
#[derive(Clone, Copy)]
pub enum Full {
    Slots { at: usize },
    Room { at: usize },
}

// The numbers of the edge in a slot.
pub fn numbers_at(slots: &[u8], slot: usize) -> Numbers
    ensures { result ≡ numbers_of (drop slot slots.now) }
{
    Numbers {
        from: base::two(slots, slot, FROM) as usize,
        to: base::two(slots, slot, TO) as usize,
        note: base::at(slots, slot, NOTE) as u8,
        core: base::at(slots, slot, CORE_LEN) as u8,
    }
}

// How many bytes the text of the edge in a slot has.
pub fn text_len(slots: &[u8], slot: usize) -> usize
    ensures { (result ≡ length_of (drop slot slots.now)) × (result < two_bytes) }
{
    base::two(slots, slot, LEN) as usize
}

// The text of the edge in a slot, as it stands in the text room.
pub fn edge_text<'a>(slots: &[u8], room: &'a [u8], slot: usize) -> &'a [u8]
    requires { Slot room.now (length room.now) (drop slot slots.now) }
    ensures { result.now ≡ bytes_of room.now (drop slot slots.now) }
{
    let offset = base::four(slots, slot, OFFSET) as usize;
    lent_bytes::part(room, offset, text_len(slots, slot))
}

// Is the edge in a slot equal to one with these numbers and this text?
fn is_alike(slots: &[u8], room: &[u8], slot: usize, e: Numbers, text: &[u8]) -> bool
    requires { Slot room.now (length room.now) (drop slot slots.now) × TextBytes text.now }
    ensures { result ≡ (eqb (edge_of room.now (drop slot slots.now)).from e.from
        && alike (edge_by e text.now) (edge_of room.now (drop slot slots.now))) }
{
    // one test after another: joined by `&&`, the proof leaves the goals at the joins open
    let other = numbers_at(slots, slot);
    if other.from != e.from {
        return false;
    }
    if e.to != other.to {
        return false;
    }
    if e.note != other.note {
        return false;
    }
    lent_bytes::same(text, edge_text(slots, room, slot))
}

// Is one of the edges equal to one with these numbers and this text? Those before number `since` are not.
pub fn is_there(slots: &[u8], room: &[u8], filled: Filled, e: Numbers, text: &[u8]) -> bool
    requires { Readable slots.now room.now filled.count × TextBytes text.now × (filled.since ≤ filled.count)
        × (there (edges_of room.now filled.since slots.now) (edge_by e text.now) ≡ false) }
    ensures { result ≡ there (edges_of room.now filled.count slots.now) (edge_by e text.now) }
{
    for number in filled.since..filled.count {
        if is_alike(slots, room, number * SLOT_BYTES, e, text) {
            return true;
        }
    }
    false
}

// Writes a slot.
fn put_slot(slots: &mut [u8], at: usize, e: Numbers, offset: usize, len: usize)
    requires { at + slot_bytes ≤ length slots.old }
    ensures { slots.new ≡ put_at at (slot_of e offset len) slots.old }
{
    let slot = [
        (e.from / 256 % 256) as u8,
        (e.from % 256) as u8,
        (e.to / 256 % 256) as u8,
        (e.to % 256) as u8,
        (offset / 16777216 % 256) as u8,
        (offset / 65536 % 256) as u8,
        (offset / 256 % 256) as u8,
        (offset % 256) as u8,
        (len / 256 % 256) as u8,
        (len % 256) as u8,
        e.note,
        e.core,
    ];
    lent_bytes::put_at(slots, at, &slot);
}

// `add_edge`: one more edge, unless one equal to it is there. Its text goes into the room from the first free byte on.
#[tactic(auto, using(crate::proofs::Unslotted::answer_unslotted, crate::proofs::Unslotted::slots_unslotted, crate::proofs::Unslotted::room_unslotted))]
pub fn add_edge(
    slots: &mut [u8],
    room: &mut [u8],
    filled: Filled,
    e: Numbers,
    text: &[u8],
) -> Result<Taken, Full>
    requires { Addable slots.old room.old filled e text.now }
    ensures { Adds slots.old room.old filled.count filled.used e text.now
        result slots.new room.new }
{
    let count = filled.count;
    let used = filled.used;
    if is_there(slots, room, filled, e, text) {
        return Ok(Taken { count, used });
    }
    let at = count * SLOT_BYTES;
    if slots.len() - at < SLOT_BYTES {
        return Err(Full::Slots { at: e.from });
    }
    let len = text.len();
    if room.len() - used < len {
        return Err(Full::Room { at: e.from });
    }
    put_slot(slots, at, e, used, len);
    lent_bytes::put_at(room, used, text);
    Ok(Taken {
        count: count + 1,
        used: used + len,
    })
}
