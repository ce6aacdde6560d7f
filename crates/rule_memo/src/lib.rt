// What the rule table has of single characters, looked up once. Most spans are one character, and a text has each of its
// characters again and again: behind the index 256 places keep what a look-up told, each that of the character that was
// put there last of those with the same lowest eight bits. A character that is not there is looked up.
#![tactic(auto)]

ghost use Rattle.std.proofs.Math.Option.{none};
ghost use Rattle.std.specs.Prelude.{◌≡◌, ◌+◌, ◌*◌, ◌%◌, ◌<◌, ◌≤◌, length, take, drop, replicate};
ghost use Rattle.definition.specs.RuleFaults.{rule_fault};
ghost use Rattle.rule_memo.specs.Kept.{kept_characters, all_places, place, character_limit, count_limit, Tells, Kept, fits, note_of, noted};

use rule_table::Found;

// The characters that are kept behind the index, and all numbers of both.
const CHARACTERS: u32 = 256;

pub const PLACES: usize = rule_table::INDEX_ENTRIES + 2 * CHARACTERS as usize;

// What is kept of a character is two numbers: where its first row is, and a note of its other bits, whether a longer
// source starts with it, and how many rows it has.
const MORE: u32 = 16384;

const ROWS: u32 = 2 * MORE;

// Counts and offsets that have room in them.
const COUNTS: usize = 65536;

const OFFSETS: usize = 0x100000000;

// Where a character is kept.
fn place_of(c: u32) -> usize
    ensures { (result ≡ place (c % kept_characters)) × (result + 1 < all_places) }
{
    rule_table::INDEX_ENTRIES + (c % CHARACTERS) as usize * 2
}

// What the table has of a text.
pub fn look_up(rules: &[u8], index: &[u32], w: &[u32]) -> Found
    requires { Kept rules.now index.now }
    ensures { Tells rules.now w.now result }
{
    if w.len() == 1 {
        let c = w[0];
        let at = place_of(c);
        let first = index[at + 1];
        if 0 < first {
            let note = index[at];
            if note % MORE == c / CHARACTERS {
                return Found {
                    first: first as usize,
                    count: (note / ROWS) as usize,
                    more: note / MORE % 2 == 1,
                };
            }
        }
    }
    rule_table::look_up(rules, &index[..rule_table::INDEX_ENTRIES], w)
}

// Is there room for all that is to be kept of a character?
#[tactic(auto, unfolding(crate::specs::Kept::fits))]
fn fits(c: u32, found: Found) -> bool
    ensures { result ≡ fits c found }
{
    c < MORE * CHARACTERS && found.count < COUNTS && found.first < OFFSETS
}

// The note of a character.
#[tactic(auto, unfolding(crate::specs::Kept::note_of, base::specs::Pick::pick))]
fn note_of(c: u32, found: Found) -> u32
    requires { (c < character_limit) × (found.count < count_limit) }
    ensures { result ≡ note_of c found }
{
    let note = c / CHARACTERS + found.count as u32 * ROWS;
    if found.more { note + MORE } else { note }
}

// Puts what was found of a character into its place.
fn put(index: &mut [u32], c: u32, found: Found)
    requires { length index.old ≡ all_places }
    ensures { index.new ≡ noted c found index.old }
{
    if fits(c, found) {
        let at = place_of(c);
        index[at] = note_of(c, found);
        index[at + 1] = found.first as u32;
    }
}

// Looks a character up and keeps what was found.
fn learn(rules: &[u8], index: &mut [u32], c: u32)
    requires { Kept rules.now index.old }
    ensures { Kept rules.now index.new }
{
    let found = look_up(rules, index, &[c]);
    put(index, c, found);
}

// The index of the rule table, behind it what the table has of some characters; these stand behind both.
pub fn fill(rules: &[u8], all: &mut [u32], count: usize)
    requires { (rule_fault rules.now ≡ none) × (take all_places all.old ≡ replicate all_places 0) × (all_places + count ≤ length all.old) }
    ensures { Kept rules.now (take all_places all.new) × (drop all_places all.new ≡ drop all_places all.old) }
{
    rule_table::fill_index(rules, &mut all[..rule_table::INDEX_ENTRIES]);
    for i in 0..count {
        let c = all[PLACES + i];
        learn(rules, &mut all[..PLACES], c);
    }
}
