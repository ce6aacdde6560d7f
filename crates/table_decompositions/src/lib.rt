// The decomposition table: its check, its index, and the row of a character.
#![tactic(auto)]

ghost use Rattle.std.specs.Prelude.{◌≡◌, ◌-◌, ◌<◌, ◌≤◌, length, get_or, take, drop, replicate};
ghost use Rattle.base.specs.Lists.{any};
ghost use Rattle.definition.specs.Limits.{most_rows};
ghost use Rattle.definition.specs.Blocks.{head_bytes};
ghost use Rattle.definition.specs.DecompositionRows.{decomposition_size, decomposition_count, decomposition_into, decomposition_fits, into_right};
ghost use Rattle.definition.specs.DecompositionRows.{decomposition_right, decompositions_of, has_row, own_fault, right_part, nested_fault};
ghost use Rattle.definition.specs.DecompositionRows.{decomposition_fault};
ghost use Rattle.definition.specs.DecompositionLaws.{RightRows};
ghost use Rattle.table_blocks.specs.Faults.{table_means};
ghost use Rattle.rule_table.specs.Index.{index_entries, indexed};
ghost use Rattle.table_decompositions.specs.Index.{row_offsets, index_of, Ready};
ghost use Rattle.table_decompositions.specs.Search.{Walks, low_of, entry_low};
ghost use Rattle.table_decompositions.specs.Told.{Found, EdgeFound};
ghost use Rattle.table_decompositions.specs.Next.{next_form};
ghost use Rattle.table_decompositions.specs.Gaps.{in_gap, GapAt};

use table_blocks::TableFault;

// How many entries the index has.
pub const INDEX_ENTRIES: usize = 512;

// Characters that one stands for, at most.
pub const MOST_INTO: u32 = 18;

// The highest tag, which is the one that gives an edge.
pub const OTHER: u32 = 5;

// The highest number that a line can hold.
const LAST_NUMBER: u32 = 0xFFFFFFFF;

// U+0020 has no row.
const SPACE: u32 = 0x20;

// How many characters a row holds.
pub fn count(table: &[u8], row: usize) -> usize
    ensures { (result ≡ decomposition_count (drop row table.now)) × (result < 256) }
{
    base::at(table, row, 4) as usize
}

// Bytes of a row: its character, tag and count, and three for each character that it holds.
pub fn size(table: &[u8], row: usize) -> usize
    ensures { (result ≡ decomposition_size (drop row table.now)) × (result ≤ 770) }
{
    5 + 3 * count(table, row)
}

// One of the characters that a row holds.
pub fn into_at(table: &[u8], row: usize, i: usize) -> u32
    requires { i < decomposition_count (drop row table.now) }
    ensures { result ≡ get_or (decomposition_into (drop row table.now)) i 0 }
{
    base::three(table, row, 5 + 3 * i)
}

// A row within the table, of a scalar value that rises and is no space, with a known tag.
#[tactic(auto, using(table_blocks::specs::Held::held_from, table_blocks::specs::Held::short_from), unfolding(definition::specs::DecompositionRows::decomposition_fits, definition::specs::DecompositionRows::decomposition_size))]
fn fits(table: &[u8], row: usize, low: u32) -> bool
    ensures { result ≡ decomposition_fits low (drop row table.now) }
{
    if table.len() < row || table.len() - row < size(table, row) {
        return false;
    }
    let c = base::three(table, row, 0);
    low <= c && c != SPACE && base::at(table, row, 3) <= OTHER && table_blocks::scalar(c)
}

// One to 18 characters, none of them left out of every text.
fn holds_right(table: &[u8], row: usize) -> bool
    ensures { result ≡ into_right (drop row table.now) }
{
    let n = count(table, row);
    if n < 1 || n > MOST_INTO as usize {
        return false;
    }
    for i in 0..n {
        let c = into_at(table, row, i);
        if !table_blocks::scalar(c) || utf8::left_out(c) {
            return false;
        }
    }
    true
}

// A row that is right by itself after the characters below `low`.
#[tactic(auto, unfolding(definition::specs::DecompositionRows::decomposition_right))]
fn is_right(table: &[u8], row: usize, low: u32) -> bool
    ensures { result ≡ decomposition_right low (drop row table.now) }
{
    fits(table, row, low) && holds_right(table, row)
}

// The first row that is not right by itself, or is one too many.
fn first_wrong(table: &[u8]) -> Result<(), TableFault>
    ensures { table_means result ≡ own_fault table.now }
{
    if !table_blocks::headed(table) {
        return Err(TableFault { at: 0 });
    }
    let mut at = table_blocks::HEAD_BYTES;
    let mut left = table_blocks::MOST_ROWS;
    let mut low = 0;
    // a `while`: each turn moves by the row's own size
    while at < table.len() {
        if left == 0 || !is_right(table, at, low) {
            return Err(TableFault { at });
        }
        low = base::three(table, at, 0) + 1;
        at += size(table, at);
        left -= 1;
    }
    Ok(())
}

// Where the rows end that are right by themselves: at the first that is not, or at the table's end. 0 where the header is faulty.
fn right_end(table: &[u8], own: Result<(), TableFault>) -> usize
    requires { table_means own ≡ own_fault table.now }
    ensures { (right_part table.now ≡ take result table.now) × (result ≤ length table.now) }
{
    match own {
        Ok(()) => table.len(),
        Err(fault) => fault.at,
    }
}

// The offset of every 16th row, put into the index as far as that reaches. A rule table's index is filled alike, over rows of
// another size: one function for the two would take a size function, and its laws, for two loops of a few lines.
pub fn fill_index(table: &[u8], index: &mut [u32])
    requires { length index.old ≤ index_entries }
    ensures { index.new ≡ indexed 0 (row_offsets table.now) index.old }
{
    let mut at = table_blocks::HEAD_BYTES;
    let mut n = 0;
    // a `while`: each turn moves by the row's own size
    while at < table.len() {
        if index.len() <= n / rule_table::INDEX_STEP {
            return;
        }
        rule_table::put_offset(index, n, at);
        at += size(table, at);
        n += 1;
    }
}

// Is there an entry, and is its row's character not above `c`? Past the table's last row the index is 0.
#[tactic(auto, unfolding(crate::specs::Search::entry_low))]
fn is_entry_low(table: &[u8], index: &[u32], k: usize, c: u32) -> bool
    requires { k < length index.now }
    ensures { result ≡ entry_low table.now c (get_or index.now k 0) }
{
    let at = index[k];
    at != 0 && base::three(table, at as usize, 0) <= c
}

// Where the walk to a character's row begins: at the last row of the index that is not above it, or at the first of all.
fn walk_start(table: &[u8], index: &[u32], c: u32) -> usize
    requires { Ready table.now index.now }
    ensures { Walks table.now c result }
{
    let mut low = 0;
    let mut high = index.len();
    // `partition_point` of the library tells its answer only of a slice that its test parts in two, which this proof need not show
    while low < high {
        let mid = low + (high - low) / 2;
        if is_entry_low(table, index, mid, c) {
            low = mid + 1;
        } else {
            high = mid;
        }
    }
    if low == 0 {
        return table_blocks::HEAD_BYTES;
    }
    index[low - 1] as usize
}

// The offset of a character's row, 0 where it has none. What is below the first row's character, as ASCII is below most
// tables', has none: it is not looked for.
pub fn row_of(table: &[u8], index: &[u32], c: u32) -> usize
    requires { Ready table.now index.now }
    ensures { Found table.now c result }
{
    if c < base::three(table, table_blocks::HEAD_BYTES, 0) {
        return 0;
    }
    let mut at = walk_start(table, index, c);
    // a `while`: each turn moves by the row's own size
    while at < table.len() {
        let d = base::three(table, at, 0);
        if d == c {
            return at;
        }
        if c < d {
            return 0;
        }
        at += size(table, at);
    }
    0
}

// The offset of a character's row where that gives an edge, 0 where it has none that does.
#[tactic(auto, using(crate::specs::Told::edge_here))]
pub fn edge_row_of(table: &[u8], index: &[u32], c: u32) -> usize
    requires { Ready table.now index.now }
    ensures { EdgeFound table.now c result }
{
    let row = row_of(table, index, c);
    if row == 0 {
        return 0;
    }
    if base::at(table, row, 3) == OTHER {
        return row;
    }
    0
}

// Does a row hold a character that has a row?
fn is_nested(table: &[u8], index: &[u32], row: usize) -> bool
    requires { Ready table.now index.now }
    ensures { result ≡ any (has_row (decompositions_of table.now)) (decomposition_into (drop row table.now)) }
{
    for i in 0..count(table, row) {
        let c = into_at(table, row, i);
        if row_of(table, index, c) != 0 {
            return true;
        }
    }
    false
}

// The first row that holds a character with a row.
fn first_nested(table: &[u8], index: &[u32]) -> Result<(), TableFault>
    requires { Ready table.now index.now }
    ensures { table_means result ≡ nested_fault table.now }
{
    let mut at = table_blocks::HEAD_BYTES;
    // a `while`: each turn moves by the row's own size
    while at < table.len() {
        if is_nested(table, index, at) {
            return Err(TableFault { at });
        }
        at += size(table, at);
    }
    Ok(())
}

// Of rows that are right by themselves the first that holds a character with a row. The index is filled for that.
fn check_part(part: &[u8], index: &mut [u32]) -> Result<(), TableFault>
    requires { (index.old ≡ replicate index_entries 0) × RightRows most_rows 0 (drop head_bytes part.now) }
    ensures answer { table_means result ≡ nested_fault part.now }
    ensures index { index.new ≡ index_of part.now }
{
    fill_index(part, index);
    first_nested(part, index)
}

// The first fault of a decomposition table. The index is left filled with every 16th row of the part that is right by itself.
// It is not compiled into the call, where its loops lack registers and miss a bar of speed.
#[inline(never)]
pub fn check_decompositions(table: &[u8], index: &mut [u32]) -> Result<(), TableFault>
    requires { index.old ≡ replicate index_entries 0 }
    ensures answer { table_means result ≡ decomposition_fault table.now }
    ensures index { index.new ≡ index_of (right_part table.now) }
{
    let own = first_wrong(table);
    let end = right_end(table, own);
    check_part(&table[..end], index)?;
    own
}

// Characters side by side, the first and the last of them, none of which gives an edge. Where the last is below the first there
// are none.
#[derive(Clone, Copy)]
struct Gap {
    first: u32,
    last: u32,
}

#[tactic(auto, unfolding(crate::specs::Gaps::in_gap))]
fn is_in(gap: Gap, c: u32) -> bool
    ensures { result ≡ in_gap gap c }
{
    gap.first <= c && c <= gap.last
}

// The least character that a walk from an offset on can find: from the first row on any, else that of the row there.
fn low_of(table: &[u8], at: usize) -> u32
    ensures { result ≡ low_of table.now at }
{
    if at == table_blocks::HEAD_BYTES {
        return 0;
    }
    base::three(table, at, 0)
}

// The characters between two rows that a character lies among. One that has a row lies alone, or in no gap if it gives an edge.
fn gap_of(table: &[u8], index: &[u32], c: u32) -> Gap
    requires { Ready table.now index.now }
    ensures { GapAt table.now c result }
{
    let mut at = walk_start(table, index, c);
    let mut first = low_of(table, at);
    // a `while`: each turn moves by the row's own size
    while at < table.len() {
        let d = base::three(table, at, 0);
        if c < d {
            return Gap { first, last: d - 1 };
        }
        if c == d {
            if base::at(table, at, 3) == OTHER {
                return Gap { first: 1, last: 0 };
            }
            return Gap { first: c, last: c };
        }
        first = d + 1;
        at += size(table, at);
    }
    Gap {
        first,
        last: LAST_NUMBER,
    }
}

// The first position from `p` on, of a text of `n` characters in a line, whose character gives an edge; or `n`. Characters beside
// each other are mostly of one script, and lie in one gap; spaces between them are below the first row's.
pub fn next_form(table: &[u8], index: &[u32], line: &[u32], n: usize, p: usize) -> usize
    requires { Ready table.now index.now × (p ≤ n) × (n < length line.now) }
    ensures { result ≡ next_form (decompositions_of table.now) line.now (n - p) p }
{
    let lowest = base::three(table, table_blocks::HEAD_BYTES, 0);
    let mut gap = Gap { first: 1, last: 0 };
    for q in p..n {
        let c = line[q + 1];
        if c < lowest || is_in(gap, c) {
            continue;
        }
        gap = gap_of(table, index, c);
        if !is_in(gap, c) {
            return q;
        }
    }
    n
}
