// What a call shows of a built lattice, by its mode: the path's string, or a listing of edges. It is written where it
// fits; how much it needs is told in any case.
#![tactic(auto)]

ghost use Rattle.std.specs.Prelude.{◌∷◌, ◌≡◌, ◌-◌, ◌≤◌, leb, length};
ghost use Rattle.base.specs.Pick.{pick};
ghost use Rattle.base.specs.Big.{four};
ghost use Rattle.lent_bytes.specs.Puts.{put_at};
ghost use Rattle.output.specs.Whole.{Whole, RowsPut, ShownPut};

use alternatives::Listed;
use words::Dicts;

// What is shown of a lattice: its mode, a number as the C interface has it; and how many edges it has, and how much text room
// they take.
#[derive(Clone, Copy)]
pub struct Built {
    pub mode: u8,
    pub count: usize,
    pub used: usize,
}

// The rows of a listing, behind its header.
fn put_rows(
    dicts: &Dicts,
    line: &[u32],
    slots: &[u8],
    room: &mut [u8],
    places: &mut [u32],
    starts: &[u32],
    built: Built,
    out: &mut [u8],
) -> usize
    requires { Whole dicts.now.rules.now dicts.now.ready.now line.now slots.now room.old places.old starts.now built }
    ensures { RowsPut dicts.now.rules.now dicts.now.ready.now dicts.now.code.now line.now slots.now room.old
        places.old built out.old out.new result }
{
    if built.mode == 3 {
        return paths::put_all_edges(out, 5, slots, room, starts, built.count);
    }
    let end = paths::put_path(out, 5, slots, room, starts, built.count, true);
    if built.mode == 2 {
        let listed = Listed {
            at: end,
            count: built.count,
            used: built.used,
        };
        return alternatives::put_alternatives(
            out, dicts, line, slots, room, places, starts, listed,
        );
    }
    end
}

// The header in front of rows that end at `end`, where all of it fits.
#[tactic(auto, unfolding(base::specs::Pick::pick))]
fn put_head(out: &mut [u8], end: usize)
    requires { 5 ≤ end }
    ensures { out.new ≡ pick (leb end (length out.old)) (put_at 0 (1 ∷ four (end - 5)) out.old) out.old }
{
    if end <= out.len() {
        listing::put_header(out, end - 5);
    }
}

// What a mode shows: how many bytes that are, and they are written where they fit. The text room is free afterwards:
// alternatives keep a filter in what the edges leave of it.
pub fn put_shown(
    dicts: &Dicts,
    line: &[u32],
    slots: &[u8],
    room: &mut [u8],
    places: &mut [u32],
    starts: &[u32],
    built: Built,
    out: &mut [u8],
) -> usize
    requires { Whole dicts.now.rules.now dicts.now.ready.now line.now slots.now room.old places.old starts.now built }
    ensures { ShownPut dicts.now.rules.now dicts.now.ready.now dicts.now.code.now line.now slots.now room.old
        places.old built out.old out.new result }
{
    if built.mode == 0 {
        return paths::put_path(out, 0, slots, room, starts, built.count, false);
    }
    let end = put_rows(dicts, line, slots, room, places, starts, built, out);
    put_head(out, end);
    end
}
