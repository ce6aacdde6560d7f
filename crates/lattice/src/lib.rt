// Building the lattice (romanize.rs, lattice/mod.rs): from each start the edges of its spans, then a fallback for each
// character that no edge covers. The first edge that finds no slot or no room ends it.
#![tactic(auto)]

ghost use Rattle.second_pass.specs.Starts.{Standing};
ghost use Rattle.lattice.specs.Lattice.{Lattice, Buildable};

use edge::{Filled, Full, Taken};
use words::Dicts;

// The lattice of a text in the slots and the room that are lent: how many edges it has and how much room they take, or
// the first that finds no slot, or a slot but too little room.
pub fn build_lattice<'a>(
    dicts: &Dicts<'a>,
    text: &'a [u8],
    line: &[u32],
    slots: &mut [u8],
    room: &mut [u8],
    places: &mut [u32],
    starts: &mut [u32],
) -> Result<Taken, Full>
    requires { Buildable dicts.now.rules.now dicts.now.ready.now dicts.now.vowels.now text.now line.now slots.old room.old places.old starts.old }
    ensures built { Lattice dicts.now.rules.now dicts.now.ready.now dicts.now.vowels.now dicts.now.code.now line.now
        (slots.old, room.old, places.old) (slots.new, room.new, places.new) result }
    ensures starts { Standing slots.new starts.new result }
{
    let n = words::text_len(line);
    let taken = first_pass::add_romanization(
        dicts,
        line,
        slots,
        room,
        places,
        starts,
        first_pass::Stretch {
            count: 0,
            used: 0,
            from: 0,
            to: n,
        },
    )?;
    second_pass::add_rom_fall_back_singles(
        dicts,
        text,
        line,
        slots,
        room,
        places,
        starts,
        Filled {
            count: taken.count,
            used: taken.used,
            since: taken.count,
        },
    )
}
