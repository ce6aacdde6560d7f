// The edge of a character that stands for others (`decomp_rom`): the engine runs a second time, on the row's characters as a
// line of their own, in the free parts of slots and room. These are free again when its text is told.
#![tactic(auto)]

ghost use Rattle.std.specs.Prelude.{◌≡◌, List, ℕ, ◌+◌, ◌<◌, ◌≤◌, length, drop};
ghost use Rattle.definition.specs.Limits.{most_bytes};
ghost use Rattle.definition.specs.Texts.{prev};
ghost use Rattle.definition.specs.Decomposing.{number};
ghost use Rattle.definition.specs.DecompositionRows.{decomposition_into};
ghost use Rattle.table_decompositions.specs.Told.{Placed};
ghost use Rattle.words.specs.Given.{World, kinds, size_in, choices_in, Lined};
ghost use Rattle.decomp_text.specs.Reading.{Besides};
ghost use Rattle.decomp.specs.Rows.{Formable, RowRead, LineReady, LineRead};
ghost use Rattle.decomp.specs.Grown.{GrowsAt};
ghost use Rattle.decomp.specs.Steps.{AddReady, put_decomp};
ghost use Rattle.decomp.specs.Answers.{unfit, unfit_at};
ghost use Rattle.decomp.specs.Adding.{TextReady, TextAdded};

use decomp_text::{Beside, Spelling};
use edge::{Filled, Full, Numbers, Taken};
use words::Dicts;

// What is prepared for a row of the most characters: these between spaces with their classes, their bytes, and an entry for
// each position, its end too.
const MOST_INTO: usize = table_decompositions::MOST_INTO as usize;

const LINE: usize = 2 * (MOST_INTO + 3);

const BYTES: usize = 4 * MOST_INTO;

const PLACES: usize = MOST_INTO + 1;

// The category of numbers.
const NUMBER: u32 = 4;

// An edge, with its start, found no slot, or a slot but not enough room, or its text would be too long.
#[derive(Clone, Copy)]
pub enum Unfit {
    Slots { at: usize },
    Room { at: usize },
    TooLong { at: usize },
}

impl From<Full> for Unfit {
    ghost from_gives = { λ f u. u ≡ unfit f };

    fn from(full: Full) -> Unfit {
        match full {
            Full::Slots { at } => Unfit::Slots { at },
            Full::Room { at } => Unfit::Room { at },
        }
    }
}

// Is the character at a place of the line a number?
fn is_number_at(line: &[u32], i: usize) -> bool
    requires { (0 < size_in line.now) × (i ≤ size_in line.now + 2) }
    ensures { (w : World) → Lined w line.now → result ≡ number (kinds w) (prev w.text i) }
{
    table_classes::category(words::kind_at(line, i)) == NUMBER
}

// The numbers beside a position.
fn beside(line: &[u32], p: usize) -> Beside
    requires { p < size_in line.now }
    ensures { (w : World) → Lined w line.now → Besides (kinds w) w.text p result }
{
    let number = is_number_at(line, p + 1);
    let before = is_number_at(line, p);
    let after = is_number_at(line, p + 2);
    Beside {
        number,
        before,
        after,
    }
}

// The text of a line, put into an array: the string of its characters' lattice, which is built in slots and room. It has no
// language code.
fn read_line(
    dicts: &Dicts,
    text: &[u8],
    line: &[u32],
    slots: &mut [u8],
    room: &mut [u8],
    starts: &mut [u32],
    beside: Beside,
    bytes: &mut [u8],
) -> Result<Spelling, Full>
    requires { LineReady dicts.now text.now line.now slots.old room.old starts.old × (length bytes.old ≡ most_bytes) }
    ensures { LineRead dicts.now line.now beside (length slots.old) (length room.old) bytes.new result }
{
    let mut places = [0u32; PLACES];
    let end = starts.len();
    // every field by name: `..` does not fill a struct with ghost fields
    let plain = Dicts {
        rules: dicts.rules,
        classes: dicts.classes,
        vowels: dicts.vowels,
        decompositions: dicts.decompositions,
        code: b"",
        ready: dicts.ready,
    };
    lattice::build_lattice(&plain, text, line, slots, room, &mut places[..end], starts)?;
    Ok(decomp_text::spell(dicts.ready, line, slots, room, starts, beside, bytes))
}

// The text of a row, put into an array: its characters are laid out as a line of their own.
fn read_row(
    dicts: &Dicts,
    row: usize,
    beside: Beside,
    slots: &mut [u8],
    room: &mut [u8],
    text: &mut [u8],
) -> Result<Spelling, Full>
    requires { Formable dicts.now × Placed dicts.now.decompositions.now row × (length text.old ≡ most_bytes) }
    ensures { RowRead dicts.now.rules.now (choices_in dicts.now.ready.now) dicts.now.classes.now dicts.now.vowels.now
        (decomposition_into (drop row dicts.now.decompositions.now)) beside (length slots.old) (length room.old) text.new result }
{
    let mut line = [0u32; LINE];
    let mut bytes = [0u8; BYTES];
    let mut starts = [0u32; PLACES];
    let n = table_decompositions::count(dicts.decompositions, row);
    let half = n + 3;
    let end = n + 1;
    decomp_line::lay_out(
        dicts.classes,
        dicts.decompositions,
        row,
        &mut line[..2 * half],
    );
    let len = decomp_line::put_bytes(dicts.decompositions, row, &mut bytes);
    read_line(
        dicts,
        &bytes[..len],
        &line[..2 * half],
        slots,
        room,
        &mut starts[..end],
        beside,
        text,
    )
}

// The edge of a text that was read, at its character. One that is too long is refused before slots and room are asked.
fn add_text(
    slots: &mut [u8],
    room: &mut [u8],
    places: &mut [u32],
    filled: Filled,
    bytes: &[u8],
    spelling: Spelling,
    p: usize,
) -> Result<Taken, Unfit>
    requires { TextReady slots.old room.old places.old filled bytes.now spelling p }
    ensures { TextAdded (slots.old, room.old, places.old) (slots.new, room.new, places.new)
        filled bytes.now spelling p result }
{
    if spelling.full {
        return Err(Unfit::TooLong { at: p });
    }
    let len = spelling.len;
    let text = &bytes[..len];
    let numbers = Numbers {
        from: p,
        to: p + 1,
        note: edge::DECOMP,
        core: 0,
    };
    let end = noting::ending_of(text, spelling.letter);
    let taken = noting::add_edge(slots, room, places, filled, numbers, text, end)?;
    Ok(taken)
}

// What the edges of a row found no place for, told of its character.
fn unfit_at(full: Full, p: usize) -> Unfit
    ensures { result ≡ unfit_at full p }
{
    match full {
        Full::Slots { at: _ } => Unfit::Slots { at: p },
        Full::Room { at: _ } => Unfit::Room { at: p },
    }
}

// The edge of the character at a position, where it stands for others. Its string's edges lie behind those that are there,
// and are gone when it is told.
pub fn add_decomp(
    dicts: &Dicts,
    line: &[u32],
    slots: &mut [u8],
    room: &mut [u8],
    places: &mut [u32],
    filled: Filled,
    p: usize,
) -> Result<Taken, Unfit>
    requires { AddReady dicts.now line.now slots.old room.old places.old filled p }
    ensures { (code : List ℕ) → GrowsAt dicts.now code line.now
        (slots.old, room.old, places.old) (slots.new, room.new, places.new)
        filled p (filled.used + most_bytes) (put_decomp p) result }
{
    let row = table_decompositions::edge_row_of(
        dicts.decompositions,
        words::forms_in(dicts.ready),
        words::number_at(line, p + 1),
    );
    if row == 0 {
        return Ok(Taken {
            count: filled.count,
            used: filled.used,
        });
    }
    let from = filled.count * edge::SLOT_BYTES;
    let used = filled.used;
    let mut text = [0u8; rom::MOST_BYTES];
    let read = read_row(
        dicts,
        row,
        beside(line, p),
        &mut slots[from..],
        &mut room[used..],
        &mut text,
    );
    match read {
        Ok(spelling) => add_text(slots, room, places, filled, &text, spelling, p),
        Err(full) => Err(unfit_at(full, p)),
    }
}
