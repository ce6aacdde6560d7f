// What a character reads that stands for others (`decomp_rom`): the string of their lattice's path, a number's with slashes
// and parted from the numbers beside it.
#![tactic(auto)]

ghost use Rattle.std.specs.Prelude.{false, List, [], ◌++◌, ◌≡◌, ℕ, ◌<◌, length, drop};
ghost use Rattle.base.specs.Pick.{pick};
ghost use Rattle.definition.specs.Limits.{most_bytes};
ghost use Rattle.base.specs.Alls.{All, Opt};
ghost use Rattle.definition.specs.Shorts.{Low};
ghost use Rattle.definition.specs.Texts.{Text, last_is};
ghost use Rattle.definition.specs.Tables.{Class};
ghost use Rattle.definition.specs.Classes.{alpha};
ghost use Rattle.definition.specs.Paths.{joined, path_from};
ghost use Rattle.definition.specs.Decomposing.{parted};
ghost use Rattle.definition.specs.Utf8.{encoded};
ghost use Rattle.definition.specs.Bounds.{Ruled};
ghost use Rattle.utf8.specs.Encodings.{Scalars};
ghost use Rattle.edge.specs.Slots.{from_of, edge_of, edges_of};
ghost use Rattle.edge.specs.Stored.{Slot};
ghost use Rattle.edge.specs.Best.{best_means};
ghost use Rattle.standing.specs.Starts.{end_of};
ghost use Rattle.words.specs.Given.{World, kinds, size_in, Told, Lined};
ghost use Rattle.standing.specs.Stands.{Stands};
ghost use Rattle.decomp_text.specs.Spelling.{Spells, Held, shaped};
ghost use Rattle.decomp_text.specs.Reading.{read_as};
ghost use Rattle.decomp_text.specs.Walking.{Lying, BestRead, text_of};

// A fraction slash, which a number's text has as a slash.
const FRACTION_SLASH: u32 = 0x2044;

// Of a text that grows in an array: how many bytes it has, whether it ends in a letter or mark, and whether it is too long. Of
// one that is, only this is told.
#[derive(Clone, Copy)]
pub struct Spelling {
    pub len: usize,
    pub letter: bool,
    pub full: bool,
}

// Is a character a number, and are those before and after it?
#[derive(Clone, Copy)]
pub struct Beside {
    pub number: bool,
    pub before: bool,
    pub after: bool,
}

// No text.
pub fn nothing() -> Spelling
    ensures { result ≡ record { len = 0; letter = false; full = false } }
{
    Spelling {
        len: 0,
        letter: false,
        full: false,
    }
}

// A text put behind; `letter` tells whether it ends in a letter or mark.
fn put(bytes: &mut [u8], s: Spelling, text: &[u8], letter: bool) -> Spelling
    requires { Held bytes.old s }
    ensures { ((ks : List Class) (t w : Text) → Spells ks bytes.old s t → text.now ≡ encoded w → Scalars w → letter ≡ last_is (alpha ks) w
        → Spells ks bytes.new result (t ++ w)) × Held bytes.new result }
{
    if text.len() == 0 {
        return s;
    }
    if s.full {
        return s;
    }
    let len = s.len;
    if rom::MOST_BYTES - len < text.len() {
        return Spelling {
            len,
            letter: false,
            full: true,
        };
    }
    lent_bytes::put_at(bytes, len, text);
    Spelling {
        len: len + text.len(),
        letter,
        full: false,
    }
}

// An ASCII text put behind.
fn put_ascii(ready: &[u32], bytes: &mut [u8], s: Spelling, text: &[u8]) -> Spelling
    requires { Held bytes.old s }
    ensures { ((w : World) (t : Text) → Told w ready.now → All Low text.now → Spells (kinds w) bytes.old s t
        → Spells (kinds w) bytes.new result (t ++ text.now)) × Held bytes.new result }
{
    put(bytes, s, text, passes::ends_in_letter(ready, text))
}

// The text of one edge put behind: the character itself, or what a rule gives, which is ASCII.
fn put_edge(
    ready: &[u32],
    line: &[u32],
    slots: &[u8],
    room: &[u8],
    slot: usize,
    number: bool,
    bytes: &mut [u8],
    s: Spelling,
) -> Spelling
    requires { Held bytes.old s × Slot room.now (length room.now) (drop slot slots.now) × (from_of (drop slot slots.now) < size_in line.now) }
    ensures { ((w : World) (t : Text) → Told w ready.now → Lined w line.now → Spells (kinds w) bytes.old s t
        → Ruled w.text (edge_of room.now (drop slot slots.now))
        → Spells (kinds w) bytes.new result (t ++ shaped number (edge_of room.now (drop slot slots.now)).text))
        × Held bytes.new result }
{
    let text = edge::edge_text(slots, room, slot);
    let numbers = edge::numbers_at(slots, slot);
    if numbers.note != edge::ORIG {
        return put_ascii(ready, bytes, s, text);
    }
    let place = numbers.from + 1;
    let letter = words::is_alpha_at(line, place);
    if number {
        if words::number_at(line, place) == FRACTION_SLASH {
            return put_ascii(ready, bytes, s, b"/");
        }
        return put(bytes, s, text, letter);
    }
    put(bytes, s, text, letter)
}

// The text of the edge that was found, if any.
fn put_best(
    ready: &[u32],
    line: &[u32],
    slots: &[u8],
    room: &[u8],
    best: Option<usize>,
    number: bool,
    bytes: &mut [u8],
    s: Spelling,
) -> Spelling
    requires { Held bytes.old s × BestRead line.now slots.now room.now best }
    ensures { ((w : World) (t : Text) → Told w ready.now → Lined w line.now → Spells (kinds w) bytes.old s t
        → Opt (Ruled w.text) (best_means room.now slots.now best)
        → Spells (kinds w) bytes.new result (t ++ shaped number (text_of (best_means room.now slots.now best))))
        × Held bytes.new result }
{
    match best {
        Some(slot) => put_edge(ready, line, slots, room, slot, number, bytes, s),
        None => s,
    }
}

// The texts of the path's edges, one behind the other.
fn put_path(
    ready: &[u32],
    line: &[u32],
    slots: &[u8],
    room: &[u8],
    starts: &[u32],
    number: bool,
    bytes: &mut [u8],
    s: Spelling,
) -> Spelling
    requires { Held bytes.old s × Lying line.now slots.now room.now starts.now }
    ensures { ((w : World) (t : Text) (count : ℕ) → Told w ready.now → Lined w line.now → Spells (kinds w) bytes.old s t
        → Stands slots.now starts.now count
        → All (Ruled w.text) (edges_of room.now count slots.now)
        → Spells (kinds w) bytes.new result
        (t ++ shaped number (joined (path_from (end_of starts.now) 0 (edges_of room.now count slots.now)))))
        × Held bytes.new result }
{
    let n = starts.len() - 1;
    let mut made = s;
    let mut p: usize = 0;
    // the path moves on by each edge's own length
    while p < n {
        let best = standing::best_right_neighbor_edge(slots, starts, p);
        made = put_best(ready, line, slots, room, best, number, bytes, made);
        p = paths::next_from(slots, best, p);
    }
    made
}

// A space put behind, where numbers stand side by side.
fn part(ready: &[u32], bytes: &mut [u8], s: Spelling, number: bool, beside: bool) -> Spelling
    requires { Held bytes.old s }
    ensures { ((w : World) (t : Text) → Told w ready.now → Spells (kinds w) bytes.old s t
        → Spells (kinds w) bytes.new result (t ++ pick number (parted beside) [])) × Held bytes.new result }
{
    if number && beside {
        return put_ascii(ready, bytes, s, b" ");
    }
    s
}

// The whole text: the path's string, a number's with slashes, and a space on the side where a number stands.
pub fn spell(
    ready: &[u32],
    line: &[u32],
    slots: &[u8],
    room: &[u8],
    starts: &[u32],
    beside: Beside,
    bytes: &mut [u8],
) -> Spelling
    requires { (length bytes.old ≡ most_bytes) × Lying line.now slots.now room.now starts.now }
    ensures { ((w : World) (count : ℕ) → Told w ready.now → Lined w line.now
        → Stands slots.now starts.now count
        → All (Ruled w.text) (edges_of room.now count slots.now)
        → Spells (kinds w) bytes.new result (read_as beside (joined (path_from (end_of starts.now) 0 (edges_of room.now count slots.now)))))
        × Held bytes.new result }
{
    let number = beside.number;
    let front = part(ready, bytes, nothing(), number, beside.before);
    let string = put_path(ready, line, slots, room, starts, number, bytes, front);
    part(ready, bytes, string, number, beside.after)
}
