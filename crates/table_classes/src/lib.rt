// The class table (dicts/model.rs, dicts/mod.rs): its check, and what it says of a character.
#![tactic(auto)]

ghost use Rattle.std.specs.Prelude.{◌≡◌, ◌++◌, ◌+◌, ◌*◌, ◌/◌, ◌%◌, ◌≤◌, ◌<◌, length, drop, get_or, take, IfSome};
ghost use Rattle.base.specs.Bits.{bit, flagged};
ghost use Rattle.definition.specs.ClassRows.{class_fits, space_right, latin_right, class_right};
ghost use Rattle.definition.specs.ClassRows.{class_fault, classes_of};
ghost use Rattle.definition.specs.Classes.{plain, class, alpha};
ghost use Rattle.table_blocks.specs.Faults.{table_means};
ghost use Rattle.table_classes.specs.Told.{Fine, class_means, Ranged, packed, kinds_of, alphas_of};
ghost use Rattle.table_classes.specs.Plain.{Plain, fault_from};

use table_blocks::TableFault;

// Scripts that the engine asks for. Scripts, categories and flags stay numbers: they are bytes of the class table's format, which
// has others that the engine does not ask for.
pub const THAI: u32 = 1;

pub const COPTIC: u32 = 2;

pub const HIRAGANA: u32 = 3;

pub const KATAKANA: u32 = 4;

pub const DEVANAGARI: u32 = 5;

// Categories that the engine asks for: nonspacing marks, format characters, private use, spaces.
pub const NONSPACING: u32 = 2;

pub const FORMAT: u32 = 5;

pub const PRIVATE: u32 = 6;

pub const SEPARATOR: u32 = 7;

// Bits of a class's flags: vowel sign, medial, subjoined, virama, vocalic, tone mark, written before its consonant,
// lower case.
pub const SIGN: u32 = 0;

pub const MEDIAL: u32 = 1;

pub const SUBJOINED: u32 = 2;

pub const VIRAMA: u32 = 3;

pub const VOCALIC: u32 = 4;

pub const TONE: u32 = 5;

pub const PRE: u32 = 6;

pub const LOWERCASE: u32 = 7;

#[derive(Clone, Copy)]
pub struct ClassRow {
    pub category: u32,
    pub script: u32,
    pub flags: u32,
}

// A class row within the table, of a scalar value that rises, with known numbers.
#[tactic(auto, using(table_blocks::specs::Held::held_from, table_blocks::specs::Held::short_from), unfolding(definition::specs::ClassRows::class_fits))]
fn class_fits(classes: &[u8], row: usize, low: u32) -> bool
    ensures { result ≡ class_fits low (drop row classes.now) }
{
    if classes.len() < row || classes.len() - row < 6 {
        return false;
    }
    let c = base::three(classes, row, 0);
    low <= c
        && base::at(classes, row, 3) <= 7
        && base::at(classes, row, 4) <= 127
        && table_blocks::scalar(c)
}

// A space has a plain row.
#[tactic(auto, unfolding(definition::specs::ClassRows::space_right))]
fn space_right(classes: &[u8], row: usize) -> bool
    ensures { result ≡ space_right (drop row classes.now) }
{
    base::three(classes, row, 0) != 32
        || (base::at(classes, row, 3) == 7
            && base::at(classes, row, 4) == 0
            && base::at(classes, row, 5) == 0)
}

// A-Z and a-z are letters.
#[tactic(auto, unfolding(definition::specs::ClassRows::latin_right))]
fn latin_right(classes: &[u8], row: usize) -> bool
    ensures { result ≡ latin_right (drop row classes.now) }
{
    !table_blocks::latin(base::three(classes, row, 0)) || base::at(classes, row, 3) == 1
}

// A class row that may follow the characters below `low`.
#[tactic(auto, unfolding(definition::specs::ClassRows::class_right))]
fn class_right(classes: &[u8], row: usize, low: u32) -> bool
    ensures { result ≡ class_right low (drop row classes.now) }
{
    class_fits(classes, row, low) && space_right(classes, row) && latin_right(classes, row)
}

// A right row of the commonest kind: a character past the Latin letters, not below `low`, and below the surrogates. The
// answer is the character past its own, or none for a row of another kind.
fn plain_class(classes: &[u8], row: usize, low: u32) -> Option<u32>
    requires { row ≤ length classes.now }
    ensures { IfSome result (λ past. Plain low (drop row classes.now) past) }
{
    if classes.len() - row < 6 {
        return None;
    }
    let c = base::three(classes, row, 0);
    if c < low || !matches!(c, 0x7B..=0xD7FF) {
        return None;
    }
    if 7 < base::at(classes, row, 3) || 127 < base::at(classes, row, 4) {
        return None;
    }
    Some(c + 1)
}

// Where the check of a class table stands: at a row, with as many rows left, characters from `low` on to come.
#[derive(Clone, Copy)]
pub struct Walk {
    pub at: usize,
    pub left: u32,
    pub low: u32,
}

// Past the rows of the commonest kind that stand one after another.
fn plain_classes(classes: &[u8], start: Walk) -> Walk
    requires { start.at ≤ length classes.now }
    ensures { (fault_from classes.now result.at result.left result.low ≡ fault_from classes.now start.at start.left start.low)
        × (start.at ≤ result.at) × (result.at ≤ length classes.now) }
{
    let mut walk = start;
    for _turn in 0..start.left {
        let Some(past) = plain_class(classes, walk.at, walk.low) else {
            return walk;
        };
        walk = Walk {
            at: walk.at + 6,
            left: walk.left - 1,
            low: past,
        };
    }
    walk
}

// The first fault of a class table. No more than `MOST_ROWS` rows, and characters rise.
pub fn check_classes(classes: &[u8]) -> Result<(), TableFault>
    ensures { table_means result ≡ class_fault classes.now }
{
    if !table_blocks::headed(classes) {
        return Err(TableFault { at: 0 });
    }
    let mut walk = Walk {
        at: table_blocks::HEAD_BYTES,
        left: table_blocks::MOST_ROWS,
        low: 0,
    };
    // a `while`: a turn goes past a row and all those of the commonest kind behind it
    while walk.at < classes.len() {
        let Walk { at, left, low } = walk;
        if left == 0 || !class_right(classes, at, low) {
            return Err(TableFault { at });
        }
        walk = plain_classes(
            classes,
            Walk {
                at: at + 6,
                left: left - 1,
                low: base::three(classes, at, 0) + 1,
            },
        );
    }
    Ok(())
}

// The numbers of the row at a place.
fn class_row(classes: &[u8], row: usize) -> ClassRow
    ensures { (result.category ≡ get_or (drop row classes.now) 3 0)
        × (result.script ≡ get_or (drop row classes.now) 4 0)
        × (result.flags ≡ get_or (drop row classes.now) 5 0) × (result.flags < 256) }
{
    ClassRow {
        category: base::at(classes, row, 3),
        script: base::at(classes, row, 4),
        flags: base::at(classes, row, 5),
    }
}

// The row of a character, halving the rows that may be it: characters rise.
fn class_of(classes: &[u8], c: u32) -> Option<ClassRow>
    requires { Fine classes.now }
    ensures { (class_means c result ≡ class (classes_of classes.now) c) × Ranged result }
{
    let mut low: usize = 0;
    let mut high: usize = (classes.len() - table_blocks::HEAD_BYTES) / 6;
    // a search by hand: the rows are bytes of a lent table, and the library's search wants a slice of rows
    while low < high {
        let mid = low + (high - low) / 2;
        let row = table_blocks::HEAD_BYTES + mid * 6;
        let char = base::three_there(classes, row, 0);
        if char == c {
            return Some(class_row(classes, row));
        }
        if char < c {
            low = mid + 1;
        } else {
            high = mid;
        }
    }
    None
}

// The packed class of a character with no row.
#[tactic(auto, using(crate::proofs::Answers::plain_packed), unfolding(base::specs::Pick::pick))]
fn plain_kind(c: u32) -> u32
    ensures { result ≡ packed (plain c) }
{
    u32::from(table_blocks::latin(c))
}

// The numbers of a row in one.
fn pack(row: ClassRow) -> u32
    requires { (row.category ≤ 7) × (row.script ≤ 127) × (row.flags < 256) }
    ensures { result ≡ row.category + row.script * 8 + row.flags * 1024 }
{
    row.category + row.script * 8 + row.flags * 1024
}

// A character's class in one number: category, script and flags.
pub fn kind_of(classes: &[u8], c: u32) -> u32
    requires { Fine classes.now }
    ensures { result ≡ packed (class (classes_of classes.now) c) }
{
    match class_of(classes, c) {
        Some(row) => pack(row),
        None => plain_kind(c),
    }
}

// What a packed class says: category, script and flag `k`, by shifts and masks.
pub fn category(kind: u32) -> u32
    ensures { result ≡ kind % 8 }
{
    kind & 7
}

pub fn script(kind: u32) -> u32
    ensures { result ≡ kind / 8 % 128 }
{
    (kind >> 3) & 127
}

pub fn class_flag(kind: u32, k: u32) -> bool
    requires { k < 8 }
    ensures { result ≡ flagged (kind / 1024) k }
{
    base::bit(kind >> 10, k)
}

// The packed class of a character, where that of `known` is at hand: spaces and doubled letters are not looked for again.
fn next_kind(classes: &[u8], c: u32, known: u32, kind: u32) -> u32
    requires { Fine classes.now × (kind ≡ packed (class (classes_of classes.now) known)) }
    ensures { result ≡ packed (class (classes_of classes.now) c) }
{
    if c == known {
        return kind;
    }
    kind_of(classes, c)
}

// The class of each number in the first half goes into the second half: a line's characters, and their classes behind
// them.
pub fn classify(classes: &[u8], line: &mut [u32])
    requires { Fine classes.now × (length line.old % 2 ≡ 0) }
    ensures { line.new ≡ take (length line.old / 2) line.old
        ++ kinds_of classes.now (take (length line.old / 2) line.old) }
{
    let half = line.len() / 2;
    let mut known: u32 = 32;
    let mut kind = kind_of(classes, known);
    for i in 0..half {
        let c = line[i];
        kind = next_kind(classes, c, known, kind);
        line[half + i] = kind;
        known = c;
    }
}

// 1 for a letter or a mark, 0 for any other character.
#[tactic(auto, using(crate::proofs::Answers::alpha_asked), unfolding(base::specs::Bits::bit))]
fn alpha_bit(classes: &[u8], c: u32) -> u32
    requires { Fine classes.now }
    ensures { result ≡ bit (alpha (classes_of classes.now) c) }
{
    u32::from(matches!(category(kind_of(classes, c)), 1..=3))
}

// Of each ASCII character whether it is a letter or a mark: targets are ASCII.
pub fn classify_ascii(classes: &[u8], alphas: &mut [u32])
    requires { Fine classes.now × (length alphas.old ≡ 128) }
    ensures { alphas.new ≡ alphas_of classes.now }
{
    for i in 0..128u32 {
        alphas[i as usize] = alpha_bit(classes, i);
    }
}
