// `add_edge` with places: the one writer of what they tell of edges.
#![tactic(auto)]

ghost use Rattle.std.specs.Prelude.{◌≡◌, List, ◌<◌, length};
ghost use Rattle.definition.specs.Texts.{last_is};
ghost use Rattle.definition.specs.Utf8.{decoded};
ghost use Rattle.definition.specs.Tables.{Class};
ghost use Rattle.definition.specs.Classes.{alpha};
ghost use Rattle.definition.specs.Edges.{Edge};
ghost use Rattle.utf8.specs.Encodings.{TextBytes};
ghost use Rattle.edge.specs.Adding.{Adds, Addable};
ghost use Rattle.edge_places.specs.Shows.{Ends};
ghost use Rattle.noting.specs.Noting.{places_after};

use edge::{Filled, Full, Numbers, Taken};
use edge_places::Ending;

// How a text ends, asked once, when its edge is added; whether in a letter or mark is told.
pub fn ending_of(text: &[u8], letter: bool) -> Ending
    requires { TextBytes text.now }
    ensures { (ks : List Class) (x : Edge) → x.text ≡ decoded text.now → letter ≡ last_is (alpha ks) x.text → Ends ks x result }
{
    Ending {
        letter,
        closed: rom::last_in(text, rom::CLOSING),
        side: rom::last_in(text, rom::O_ANG_SIDE),
        empty: text.len() == 0,
    }
}

// `add_edge`: one more edge, unless one equal to it is there; where one was added, places note it.
#[tactic(auto, using(crate::proofs::Added::noted_where_more, crate::proofs::Added::same_where_none_more))]
pub fn add_edge(
    slots: &mut [u8],
    room: &mut [u8],
    places: &mut [u32],
    filled: Filled,
    e: Numbers,
    text: &[u8],
    end: Ending,
) -> Result<Taken, Full>
    requires { Addable slots.old room.old filled e text.now × (e.from < e.to) × (e.to < length places.old) }
    ensures edge { Adds slots.old room.old filled.count filled.used e text.now
        result slots.new room.new }
    ensures places { places.new ≡ places_after result filled.count e end places.old }
{
    let taken = edge::add_edge(slots, room, filled, e, text)?;
    if filled.count < taken.count {
        edge_places::note_edge(places, e.from, e.to, end);
    }
    Ok(taken)
}
