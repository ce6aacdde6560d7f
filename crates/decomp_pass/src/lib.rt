// The first pass of building the lattice (romanize.rs), where characters may stand for others: from each start the edges of
// its spans, then the edge of its character. The first edge that finds no slot or no room, or is too long, ends it.
#![tactic(auto)]

ghost use Rattle.words.specs.Given.{size_in};
ghost use Rattle.decomp_pass.specs.Passes.{PassReady, Passes, Begins};

use decomp::Unfit;
use edge::{Filled, Taken};
use first_pass::Stretch;
use words::Dicts;

// From every start, with no edge before. The starts up to the next character that stands for others go at once, then comes its
// edge. Of each start it is kept how many edges there were when the search came to it.
pub fn add_romanization(
    dicts: &Dicts,
    line: &[u32],
    slots: &mut [u8],
    room: &mut [u8],
    places: &mut [u32],
    starts: &mut [u32],
) -> Result<Taken, Unfit>
    requires { PassReady dicts.now line.now slots.old room.old places.old starts.old }
    ensures built { Passes dicts.now line.now (slots.old, room.old, places.old) (slots.new, room.new, places.new) result }
    ensures starts { Begins slots.new room.new (size_in line.now) starts.new result }
{
    let n = words::text_len(line);
    let mut taken = Taken { count: 0, used: 0 };
    let mut s: usize = 0;
    let mut at = table_decompositions::next_form(
        dicts.decompositions,
        words::forms_in(dicts.ready),
        line,
        n,
        0,
    );
    // a `while`: each turn goes on to the next character that stands for others
    while at < n {
        let stretch = Stretch {
            count: taken.count,
            used: taken.used,
            from: s,
            to: at + 1,
        };
        let spans = first_pass::add_romanization(
            dicts, line, slots, room, places, starts, stretch,
        )?;
        let filled = Filled {
            count: spans.count,
            used: spans.used,
            since: standing::since(starts, at),
        };
        taken = decomp::add_decomp(dicts, line, slots, room, places, filled, at)?;
        s = at + 1;
        at = table_decompositions::next_form(
            dicts.decompositions,
            words::forms_in(dicts.ready),
            line,
            n,
            s,
        );
    }
    let rest = Stretch {
        count: taken.count,
        used: taken.used,
        from: s,
        to: n,
    };
    let all = first_pass::add_romanization(dicts, line, slots, room, places, starts, rest)?;
    Ok(all)
}
