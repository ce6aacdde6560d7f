// The bytes of an output: a listing's header and its rows, or the texts of a string.
#![tactic(auto)]

ghost use Rattle.std.specs.Prelude.{◌≡◌, ◌∷◌, ◌+◌, ◌≤◌, length, drop};
ghost use Rattle.base.specs.Big.{four};
ghost use Rattle.definition.specs.Utf8.{encoded};
ghost use Rattle.definition.specs.Capacity.{bytes};
ghost use Rattle.definition.specs.Listing.{edge_row};
ghost use Rattle.utf8.specs.Encodings.{TextBytes};
ghost use Rattle.lent_bytes.specs.Puts.{put_at};
ghost use Rattle.edge.specs.Slots.{length_of, edge_by, edge_of};
ghost use Rattle.edge.specs.Stored.{Slot};
ghost use Rattle.definition.specs.Listing.{row_head_bytes};
ghost use Rattle.listing.specs.Sizes.{row_most, Countable};
ghost use Rattle.listing.specs.Rows.{row_head, row_of, row_size};
ghost use Rattle.listing.specs.Items.{item, put_bytes};

// Bytes of a row before its text.
const HEAD_BYTES: usize = 8;

// The header of a listing whose rows take `rows` bytes: version 1, and that number in four bytes.
pub fn put_header(out: &mut [u8], rows: usize)
    requires { 5 ≤ length out.old }
    ensures { out.new ≡ put_at 0 (1 ∷ four rows) out.old }
{
    let header = [
        1,
        (rows / 16777216 % 256) as u8,
        (rows / 65536 % 256) as u8,
        (rows / 256 % 256) as u8,
        (rows % 256) as u8,
    ];
    lent_bytes::put_at(out, 0, &header);
}

// A row's bytes before a text of `len` bytes.
fn put_row_head(out: &mut [u8], at: usize, e: edge::Numbers, len: usize)
    requires { at + row_head_bytes + len ≤ length out.old }
    ensures { out.new ≡ put_at at (row_head e len) out.old }
{
    let rest = 6 + len;
    let head = [
        (rest / 256 % 256) as u8,
        (rest % 256) as u8,
        (e.from / 256 % 256) as u8,
        (e.from % 256) as u8,
        (e.to / 256 % 256) as u8,
        (e.to % 256) as u8,
        e.note,
        e.core,
    ];
    lent_bytes::put_at(out, at, &head);
}

// A row with the text `text`.
fn put_row(out: &mut [u8], at: usize, e: edge::Numbers, text: &[u8]) -> usize
    requires { at + row_head_bytes + length text.now ≤ length out.old }
    ensures end { result ≡ at + row_head_bytes + length text.now }
    ensures row { out.new ≡ put_at at (edge_row (edge_by e text.now) text.now) out.old }
{
    let start = at + HEAD_BYTES;
    put_row_head(out, at, e, text.len());
    lent_bytes::put_at(out, start, text);
    start + text.len()
}

// How many bytes the row of the edge in a slot takes.
pub fn edge_row_len(slots: &[u8], slot: usize) -> usize
    ensures { (result ≡ row_head_bytes + length_of (drop slot slots.now)) × (result ≤ row_most) }
{
    HEAD_BYTES + edge::text_len(slots, slot)
}

// The text of the edge in a slot.
pub fn put_edge_text(out: &mut [u8], at: usize, slots: &[u8], room: &[u8], slot: usize) -> usize
    requires { Slot room.now (length room.now) (drop slot slots.now)
        × (at + bytes (edge_of room.now (drop slot slots.now)) ≤ length out.old) }
    ensures end { result ≡ at + bytes (edge_of room.now (drop slot slots.now)) }
    ensures text { out.new ≡ put_at at (encoded (edge_of room.now (drop slot slots.now)).text) out.old }
{
    let text = edge::edge_text(slots, room, slot);
    lent_bytes::put_at(out, at, text);
    at + text.len()
}

// The row of the edge in a slot.
pub fn put_edge_row(out: &mut [u8], at: usize, slots: &[u8], room: &[u8], slot: usize) -> usize
    requires { Slot room.now (length room.now) (drop slot slots.now)
        × (at + row_size (edge_of room.now (drop slot slots.now)) ≤ length out.old) }
    ensures end { result ≡ at + row_size (edge_of room.now (drop slot slots.now)) }
    ensures row { out.new ≡ put_at at (row_of (edge_of room.now (drop slot slots.now))) out.old }
{
    put_row_head(
        out,
        at,
        edge::numbers_at(slots, slot),
        edge::text_len(slots, slot),
    );
    put_edge_text(out, at + HEAD_BYTES, slots, room, slot)
}

// The row of the edge in a slot, or in a string its text alone. Where it does not fit nothing is written, but it is
// counted.
pub fn put_item(
    out: &mut [u8],
    at: usize,
    slots: &[u8],
    room: &[u8],
    slot: usize,
    rows: bool,
) -> usize
    requires { Slot room.now (length room.now) (drop slot slots.now) × Countable at row_most }
    ensures { ((result, out.new) ≡ put_bytes (item rows (edge_of room.now (drop slot slots.now))) (at, out.old))
        × (result ≤ at + row_most) }
{
    if rows {
        let end = at + edge_row_len(slots, slot);
        if out.len() < end {
            return end;
        }
        return put_edge_row(out, at, slots, room, slot);
    }
    let end = at + edge::text_len(slots, slot);
    if out.len() < end {
        return end;
    }
    put_edge_text(out, at, slots, room, slot)
}

// A row with the text `text`. Where it does not fit nothing is written, but it is counted.
pub fn put_other(out: &mut [u8], at: usize, e: edge::Numbers, text: &[u8]) -> usize
    requires { Countable at (row_head_bytes + length text.now) × TextBytes text.now }
    ensures { (result, out.new) ≡ put_bytes (row_of (edge_by e text.now)) (at, out.old) }
{
    let end = at + HEAD_BYTES + text.len();
    if out.len() < end {
        return end;
    }
    put_row(out, at, e, text)
}
