// The vowel table (dicts/model.rs, dicts/mod.rs): its check, and the vowel of a script.
#![tactic(auto)]

ghost use Rattle.std.specs.Prelude.{◌≡◌, ◌+◌, ◌-◌, ◌≤◌, length, take, drop};
ghost use Rattle.definition.specs.VowelRows.{vowel_size, vowel_fits, letters_right, vowel_right};
ghost use Rattle.definition.specs.VowelRows.{vowel_fault, vowels_of};
ghost use Rattle.definition.specs.Vowels.{vowel_row};
ghost use Rattle.table_blocks.specs.Faults.{table_means};
ghost use Rattle.table_vowels.specs.Told.{FineVowels, vowel_means, Lettered};

use table_blocks::TableFault;

// The row of a script: its type, and where in the table its letters stand.
#[derive(Clone, Copy)]
pub struct VowelRow {
    pub ao: bool,
    pub from: usize,
    pub to: usize,
}

// Scripts that have letters, and vowel rows of a table, at most.
const LAST_SCRIPT: u32 = 127;

// A vowel row within the table, of a script that rises, with a known type.
#[tactic(auto, using(table_blocks::specs::Held::held_from, table_blocks::specs::Held::short_from), unfolding(definition::specs::VowelRows::vowel_fits, definition::specs::VowelRows::vowel_size))]
fn vowel_fits(vowels: &[u8], row: usize, low: u32) -> bool
    ensures { result ≡ vowel_fits low (drop row vowels.now) }
{
    let count = base::at(vowels, row, 2) as usize;
    if vowels.len() < row || vowels.len() - row < 3 + count {
        return false;
    }
    let script = base::at(vowels, row, 0);
    low <= script && script <= LAST_SCRIPT && base::at(vowels, row, 1) <= 1
}

// One to four letters, for a row within the table.
#[tactic(auto, using(crate::proofs::VowelTests::letters_at), unfolding(definition::specs::VowelRows::letters_right, definition::specs::VowelRows::vowel_size))]
fn letters_right(vowels: &[u8], row: usize) -> bool
    requires { vowel_size (drop row vowels.now) ≤ length (drop row vowels.now) }
    ensures { result ≡ letters_right (drop row vowels.now) }
{
    let count = base::at(vowels, row, 2) as usize;
    let from = row + 3;
    matches!(count, 1..=4) && table_blocks::all_small(vowels, from, from + count)
}

// A vowel row that may follow the scripts below `low`.
#[tactic(auto, unfolding(definition::specs::VowelRows::vowel_right))]
fn vowel_right(vowels: &[u8], row: usize, low: u32) -> bool
    ensures { result ≡ vowel_right low (drop row vowels.now) }
{
    vowel_fits(vowels, row, low) && letters_right(vowels, row)
}

// The first fault of a vowel table. Scripts rise from 1 to 127.
pub fn check_vowels(vowels: &[u8]) -> Result<(), TableFault>
    ensures { table_means result ≡ vowel_fault vowels.now }
{
    if !table_blocks::headed(vowels) {
        return Err(TableFault { at: 0 });
    }
    let mut at = table_blocks::HEAD_BYTES;
    let mut left = LAST_SCRIPT;
    let mut low = 1;
    // a `while`: each turn moves by the row's own size
    while at < vowels.len() {
        if left == 0 || !vowel_right(vowels, at, low) {
            return Err(TableFault { at });
        }
        low = base::at(vowels, at, 0) + 1;
        at += 3 + base::at(vowels, at, 2) as usize;
        left -= 1;
    }
    Ok(())
}

// The vowel row of a script.
pub fn vowel_row(vowels: &[u8], script: u32) -> Option<VowelRow>
    requires { FineVowels vowels.now }
    ensures { (vowel_means vowels.now script result ≡ vowel_row (vowels_of vowels.now) script)
        × Lettered vowels.now result }
{
    let mut at = table_blocks::HEAD_BYTES;
    // a `while`: each turn moves by the row's own size
    while at < vowels.len() {
        let from = at + 3;
        let to = from + base::at(vowels, at, 2) as usize;
        if base::at(vowels, at, 0) == script {
            let ao = base::at(vowels, at, 1) == 1;
            return Some(VowelRow { ao, from, to });
        }
        at = to;
    }
    None
}

// The letters of a row, as they stand in the lent table.
pub fn vowel_letters<'a>(vowels: &'a [u8], row: VowelRow) -> &'a [u8]
    requires { (row.from ≤ row.to) × (row.to ≤ length vowels.now) }
    ensures { result.now ≡ take (row.to - row.from) (drop row.from vowels.now) }
{
    &vowels[row.from..row.to]
}
