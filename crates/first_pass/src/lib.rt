// The first pass of building the lattice (romanize.rs, lattice/mod.rs): from each start the edges of its spans. The first
// edge that finds no slot or no room ends it.
#![tactic(auto)]

ghost use Rattle.std.specs.Prelude.{◌≡◌, ◌+◌, ◌*◌, ltb, ◌||◌};
ghost use Rattle.definition.specs.Limits.{most_source, most_bytes};
ghost use Rattle.definition.specs.Building.{build};
ghost use Rattle.words.specs.Given.{size_in};
ghost use Rattle.passes.specs.Reached.{Reaches};
ghost use Rattle.first_pass.specs.Rises.{put_span};
ghost use Rattle.first_pass.specs.FirstPass.{SpanReady, StartReady, PassReady, FirstPass, BeganTo};

use edge::{Filled, Full, Taken};
use words::{Dicts, Look, Span};

// Ends of a start, at most: no source is longer.
const MOST_SOURCE: usize = rule_row::MOST_SOURCE as usize;

// Is the span a source, or the start of one?
fn is_known(look: Look) -> bool
    ensures { result ≡ (ltb 0 look.found.count || look.found.more) }
{
    0 < look.found.count || look.found.more
}

// The edge of one span, where it has one, is added.
fn add_span(
    dicts: &Dicts,
    line: &[u32],
    slots: &mut [u8],
    room: &mut [u8],
    places: &mut [u32],
    filled: Filled,
    look: Look,
) -> Result<Taken, Full>
    requires { SpanReady dicts.now.rules.now dicts.now.ready.now dicts.now.vowels.now line.now slots.old room.old places.old filled look }
    ensures { Reaches dicts.now.rules.now dicts.now.ready.now dicts.now.vowels.now dicts.now.code.now line.now
        (slots.old, room.old, places.old) (slots.new, room.new, places.new)
        filled (filled.used + most_bytes) (λ D t. put_span D t look.span.from look.span.to) result }
{
    let mut bytes = [0u8; rom::MOST_BYTES];
    match spans::put_span_edge(dicts, line, places, look, &mut bytes) {
        Some(found) => {
            let text = &bytes[..found.len];
            let end = noting::ending_of(text, passes::ends_in_letter(dicts.ready, text));
            noting::add_edge(slots, room, places, filled, found.numbers, text, end)
        }
        None => Ok(Taken {
            count: filled.count,
            used: filled.used,
        }),
    }
}

// `add_romanization` from one start: its ends rise while the span is a prefix of a source.
fn add_from(
    dicts: &Dicts,
    line: &[u32],
    slots: &mut [u8],
    room: &mut [u8],
    places: &mut [u32],
    filled: Filled,
    s: usize,
) -> Result<Taken, Full>
    requires { StartReady dicts.now.rules.now dicts.now.ready.now dicts.now.vowels.now line.now slots.old room.old places.old filled s }
    ensures { Reaches dicts.now.rules.now dicts.now.ready.now dicts.now.vowels.now dicts.now.code.now line.now
        (slots.old, room.old, places.old) (slots.new, room.new, places.new)
        filled (filled.used + most_source * most_bytes) (λ D t. build D t s) result }
{
    let n = words::text_len(line);
    let mut taken = Taken {
        count: filled.count,
        used: filled.used,
    };
    for e in s + 1..s + 1 + MOST_SOURCE {
        if n < e {
            return Ok(taken);
        }
        let look = words::look_up(dicts, line, Span { from: s, to: e });
        if !is_known(look) {
            return Ok(taken);
        }
        let so_far = Filled {
            count: taken.count,
            used: taken.used,
            since: filled.since,
        };
        taken = add_span(dicts, line, slots, room, places, so_far, look)?;
        // no longer source: the next span is none's start
        if !look.found.more {
            return Ok(taken);
        }
    }
    Ok(taken)
}

// A stretch of starts, and how many edges there are and how much room they take when the search comes to it.
#[derive(Clone, Copy)]
pub struct Stretch {
    pub count: usize,
    pub used: usize,
    pub from: usize,
    pub to: usize,
}

// From every start of a stretch. Of each start, and of the one behind the last, it is kept how many edges there were when the
// search came to it.
pub fn add_romanization(
    dicts: &Dicts,
    line: &[u32],
    slots: &mut [u8],
    room: &mut [u8],
    places: &mut [u32],
    starts: &mut [u32],
    stretch: Stretch,
) -> Result<Taken, Full>
    requires { PassReady dicts.now.rules.now dicts.now.ready.now dicts.now.vowels.now line.now slots.old room.old places.old starts.old stretch }
    ensures built { FirstPass dicts.now.rules.now dicts.now.ready.now dicts.now.vowels.now dicts.now.code.now line.now
        (slots.old, room.old, places.old) (slots.new, room.new, places.new) stretch result }
    ensures starts { BeganTo slots.new room.new (size_in line.now) starts.new stretch result }
{
    let mut taken = Taken {
        count: stretch.count,
        used: stretch.used,
    };
    for s in stretch.from..stretch.to {
        standing::begin_at(starts, s, taken.count);
        let filled = Filled {
            count: taken.count,
            used: taken.used,
            since: standing::since(starts, s),
        };
        taken = add_from(dicts, line, slots, room, places, filled, s)?;
    }
    standing::begin_at(starts, stretch.to, taken.count);
    Ok(taken)
}
