// A filter of texts in lent bytes, a cell each: a text that was marked has three cells at 1, so one that has a cell at 0
// was never marked. Without cells every text may have been. A text's cells come from one hash of it.
#![tactic(auto)]

ghost use Rattle.std.specs.Prelude.{◌≡◌, false, List, [], ◌∷◌, ◌++◌, ◌/◌, ◌%◌, ◌<◌, eqb, length, get_or, set};
ghost use Rattle.base.specs.Lists.{any, same};
ghost use Rattle.definition.specs.Texts.{Text};
ghost use Rattle.marks.specs.Marked.{hash_limit, hash_turn, hash, Marked};

// Where the hash starts, what a turn multiplies by, and what it stays below.
const START: u64 = 2166136261;

const TIMES: u64 = 16777619;

const LIMIT: u64 = 4294967296;

// What the hash is divided by for each cell.
const FIRST: u64 = 1;

const SECOND: u64 = 7;

const THIRD: u64 = 61;

// The hash of a text with one byte more.
fn turn(h: u64, b: u8) -> u64
    requires { h < hash_limit }
    ensures { (result ≡ hash_turn h b) × (result < hash_limit) }
{
    (h * TIMES + b as u64) % LIMIT
}

// The hash of a text.
fn hash(w: &[u8]) -> u64
    ensures { result ≡ hash w.now }
{
    let mut h = START;
    for b in w {
        h = turn(h, *b);
    }
    h
}

// The cell, of `m`, that a hash divided by `by` has.
fn cell(m: usize, h: u64, by: u64) -> usize
    requires { (0 < m) × (0 < by) }
    ensures { (result ≡ h / by % m) × (result < m) }
{
    (h / by % m as u64) as usize
}

// Is the cell at 1 that a hash divided by `by` has?
#[tactic(auto, using(crate::specs::Marked::cells))]
fn is_set(cells: &[u8], h: u64, by: u64) -> bool
    requires { 0 < by }
    ensures { result ≡ eqb (get_or cells.now (h / by % length cells.now) 1) 1 }
{
    cells.is_empty() || cells[cell(cells.len(), h, by)] == 1
}

// Sets the cell to 1 that a hash divided by `by` has.
#[tactic(auto, using(crate::specs::Marked::cells))]
fn set_cell(cells: &mut [u8], h: u64, by: u64)
    requires { 0 < by }
    ensures { cells.new ≡ set cells.old (h / by % length cells.old) 1 }
{
    let m = cells.len();
    if 0 < m {
        cells[cell(m, h, by)] = 1;
    }
}

// May a text be among those that were marked? `false` is sure.
pub fn may_hold(cells: &[u8], w: &[u8]) -> bool
    ensures { (ws : List Text) → Marked ws cells.now → result ≡ false → any (same w.now) ws ≡ false }
{
    let h = hash(w);
    is_set(cells, h, FIRST) && is_set(cells, h, SECOND) && is_set(cells, h, THIRD)
}

// Marks a text.
pub fn mark(cells: &mut [u8], w: &[u8])
    ensures { (ws : List Text) → Marked ws cells.old → Marked (ws ++ w.now ∷ []) cells.new }
{
    let h = hash(w);
    set_cell(cells, h, FIRST);
    set_cell(cells, h, SECOND);
    set_cell(cells, h, THIRD);
}
