// What is asked of the edges so far, kept by position: `places` has an entry for each of 0 to n, so that a question is
// one read. Adding an edge notes it at its end and, over one character, at its start; and a start of word is remembered
// here. The layout of an entry is in specs/Entry.
#![tactic(auto)]

ghost use Rattle.std.specs.Prelude.{◌≡◌, ◌<◌, ◌-◌, length, get_or};
ghost use Rattle.base.specs.Bits.{bit};
ghost use Rattle.base.specs.Pick.{pick};
ghost use Rattle.edge_places.specs.Entry.{start_in, letter_in, over_in, closed_in, side_in, back_in, back_limit, lettered, with_longest, noted};
ghost use Rattle.edge_places.specs.Shows.{noted_end, noted_over, noted_edge, remembered};
ghost use Rattle.edge_places.specs.Behind.{spoken_in, step_in};

// How the text of an edge ends: in a letter or mark; in a consonant, w and y not counted; in one beside which O ang is
// spoken; and whether it is empty.
#[derive(Clone, Copy)]
pub struct Ending {
    pub letter: bool,
    pub closed: bool,
    pub side: bool,
    pub empty: bool,
}

// The entry of a position; past the end there is 0.
pub fn entry(places: &[u32], p: usize) -> u32
    ensures { result ≡ get_or places.now p 0 }
{
    places.get(p).copied().unwrap_or(0)
}

// What is remembered of a start of word: 0 not asked, 1 a start, 2 none.
pub fn start(places: &[u32], p: usize) -> u32
    ensures { result ≡ start_in (get_or places.now p 0) }
{
    entry(places, p) % 4
}

// Does an edge that ends here end in a letter or mark?
pub fn has_letter(places: &[u32], p: usize) -> bool
    ensures { result ≡ letter_in (get_or places.now p 0) }
{
    entry(places, p) / 4 % 2 == 1
}

// Does an edge go over the one character here?
pub fn is_covered(places: &[u32], p: usize) -> bool
    ensures { result ≡ over_in (get_or places.now p 0) }
{
    entry(places, p) / 8 % 2 == 1
}

// Does the longest edge that ends here end in a consonant?
pub fn is_closed(places: &[u32], p: usize) -> bool
    ensures { result ≡ closed_in (get_or places.now p 0) }
{
    entry(places, p) / 16 % 2 == 1
}

// Is there a longest edge that ends here, with a text that is not empty?
pub fn is_spoken(x: u32) -> bool
    ensures { result ≡ spoken_in x }
{
    if x / 128 == 0 {
        return false;
    }
    x / 64 % 2 != 1
}

// Does that text end in a consonant beside which O ang is spoken?
pub fn is_side(x: u32) -> bool
    ensures { result ≡ side_in x }
{
    x / 32 % 2 == 1
}

// Where the walk back goes on from `at`: where that edge starts, or one back where none ends.
pub fn step_back(x: u32, at: usize) -> usize
    ensures { result ≡ at - step_in x }
{
    let back = (x / 128) as usize;
    if back == 0 {
        return at.saturating_sub(1);
    }
    at.saturating_sub(back)
}

// A start of word, or none, is remembered.
pub fn remember(places: &mut [u32], p: usize, start: bool)
    ensures { places.new ≡ remembered places.old p (pick start 1 2) }
{
    if places.len() <= p {
        return;
    }
    let x = entry(places, p) / 4 * 4;
    if start {
        places[p] = x + 1;
        return;
    }
    places[p] = x + 2;
}

// A bit as a number.
fn bit(b: bool) -> u32
    ensures { (result ≡ bit b) × (result < 2) }
{
    if b {
        return 1;
    }
    0
}

// An entry where an edge that ends here ends in a letter or mark.
fn lettered(x: u32, letter: bool) -> u32
    ensures { (result ≡ lettered x letter) × (back_in result ≡ back_in x) }
{
    if letter {
        return x / 8 * 8 + 4 + x % 4;
    }
    x
}

// An entry where the longest edge that ends here starts `back` before it, so far.
fn with_longest(x: u32, back: u32, end: Ending) -> u32
    requires { back < back_limit }
    ensures { result ≡ with_longest x back end }
{
    x % 16 + bit(end.closed) * 16 + bit(end.side) * 32 + bit(end.empty) * 64 + back * 128
}

// An entry where one more edge ends that starts `back` before it. Of edges as long the first stays.
fn noted(x: u32, back: u32, end: Ending) -> u32
    requires { back < back_limit }
    ensures { result ≡ noted x back end }
{
    let y = lettered(x, end.letter);
    if y / 128 < back {
        return with_longest(y, back, end);
    }
    y
}

// Notes at its end that there is one more edge.
fn note_end(places: &mut [u32], from: usize, to: usize, end: Ending)
    requires { (from < to) × (to < length places.old) × (to < back_limit) }
    ensures { places.new ≡ noted_end from to end places.old }
{
    places[to] = noted(entry(places, to), (to - from) as u32, end);
}

// Notes at its start one that goes over one character.
fn note_over(places: &mut [u32], from: usize, to: usize)
    requires { (from < to) × (to < length places.old) }
    ensures { places.new ≡ noted_over from to places.old }
{
    if to == from + 1 {
        let x = entry(places, from);
        places[from] = x / 16 * 16 + 8 + x % 8;
    }
}

// Notes that there is one more edge.
pub fn note_edge(places: &mut [u32], from: usize, to: usize, end: Ending)
    requires { (from < to) × (to < length places.old) × (to < back_limit) }
    ensures { places.new ≡ noted_edge from to end places.old }
{
    note_end(places, from, to, end);
    note_over(places, from, to);
}
