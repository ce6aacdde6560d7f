// The rule table as a whole (dicts/mod.rs): its sparse index, and the door to its rows. Its check is in crates/rule_table_check.
#![tactic(auto)]

ghost use Rattle.std.specs.Prelude.{◌≡◌, ◌+◌, ◌<◌, ◌≤◌, length, get_or, drop};
ghost use Rattle.definition.specs.RuleRows.{rule_source, rules_of};
ghost use Rattle.rule_table.specs.Order.{compared, First};
ghost use Rattle.rule_table.specs.Index.{index_entries, offsets_from, row_offsets, entered, indexed, Ready};
ghost use Rattle.rule_table.specs.Seek.{is_below, is_equal, order_at, seek, first_at, equal_rows};
ghost use Rattle.rule_table.specs.Entries.{entry_below};
ghost use Rattle.rule_table.specs.Longer.{has_longer};
ghost use Rattle.base.specs.Lists.{starts};

use std::cmp::Ordering;

// How many rows lie from one entry of the index to the next, and how many entries it has.
pub const INDEX_STEP: usize = 16;

pub const INDEX_ENTRIES: usize = 512;

// What the table has of a text: the rows with this source, where the first is and how many; and whether a longer source
// starts with it.
#[derive(Clone, Copy)]
pub struct Found {
    pub first: usize,
    pub count: usize,
    pub more: bool,
}

// How the source of a row stands to a text, character by character.
pub fn compare_source(rules: &[u8], row: usize, w: &[u32]) -> Ordering
    ensures { result ≡ compared (rule_source (drop row rules.now)) w.now }
{
    let count = rule_row::source_len(rules, row);
    for i in 0..count {
        if w.len() <= i {
            return Ordering::Greater;
        }
        let c = base::three(rules, row, 6 + 3 * i);
        let d = w[i];
        if c < d {
            return Ordering::Less;
        }
        if d < c {
            return Ordering::Greater;
        }
    }
    if count < w.len() {
        Ordering::Less
    } else {
        Ordering::Equal
    }
}

// The offset of row `n`, put into the index if it is one of those and there is room: of this table, and of the decomposition
// table.
#[tactic(auto, unfolding(crate::specs::Index::entered, base::specs::Pick::pick))]
pub fn put_offset(index: &mut [u32], n: usize, at: usize)
    requires { at < 0x100000000 }
    ensures { index.new ≡ entered n at index.old }
{
    let k = n / INDEX_STEP;
    if index.len() <= k {
        return;
    }
    if n % INDEX_STEP == 0 {
        index[k] = at as u32;
    }
}

// The offset of every 16th row, put into the index as far as that reaches. table_decompositions has the same over rows of its
// own: one function for both would take a row's size as a closure, and each contract would have to say what that computes.
pub fn fill_index(rules: &[u8], index: &mut [u32])
    requires { length index.old ≤ index_entries }
    ensures { index.new ≡ indexed 0 (row_offsets rules.now) index.old }
{
    let mut at: usize = 5;
    let mut n: usize = 0;
    // a `while`: each turn moves by the row's own size
    while at < rules.len() {
        if index.len() <= n / INDEX_STEP {
            return;
        }
        put_offset(index, n, at);
        at += rule_row::size(rules, at);
        n += 1;
    }
}

// Is the row's source below a text?
fn is_below(rules: &[u8], row: usize, w: &[u32]) -> bool
    ensures { result ≡ is_below (order_at rules.now w.now row) }
{
    compare_source(rules, row, w).is_lt()
}

// Is the row's source equal to a text?
fn is_equal(rules: &[u8], row: usize, w: &[u32]) -> bool
    ensures { result ≡ is_equal (order_at rules.now w.now row) }
{
    compare_source(rules, row, w).is_eq()
}

// The first character of a row's source, where it has one and the table reaches past it. The count of characters lies before
// it: one number has both.
fn first_of(rules: &[u8], row: usize) -> Option<u32>
    ensures { First (drop row rules.now) result }
{
    if row < rules.len() && 8 < rules.len() - row {
        let key = base::four_there(rules, row, 5);
        if 0xFFFFFF < key {
            return Some(key % 0x1000000);
        }
    }
    None
}

// Is there an entry, and is its row below a text? Past the table's last row the index is 0. Most rows differ from a text in
// the first character, which settles it.
fn is_entry_below(rules: &[u8], index: &[u32], k: usize, w: &[u32]) -> bool
    requires { k < length index.now }
    ensures { result ≡ entry_below rules.now w.now (get_or index.now k 0) }
{
    let at = index[k];
    if at == 0 {
        return false;
    }
    if 0 < w.len() {
        if let Some(first) = first_of(rules, at as usize) {
            let sought = w[0];
            if first < sought {
                return true;
            }
            if sought < first {
                return false;
            }
        }
    }
    is_below(rules, at as usize, w)
}

// Where the walk to a text begins: at the last row of the index that is below it, or at the first of all.
fn walk_start(rules: &[u8], index: &[u32], w: &[u32]) -> usize
    requires { Ready rules.now index.now }
    ensures { seek rules.now w.now (offsets_from rules.now result)
        ≡ first_at rules.now w.now }
{
    // `partition_point` of the library tells its answer only of a slice that is sorted by the test, which this proof need not show
    let mut low: usize = 0;
    let mut high = index.len();
    while low < high {
        let mid = low + (high - low) / 2;
        if is_entry_below(rules, index, mid, w) {
            low = mid + 1;
        } else {
            high = mid;
        }
    }
    if low == 0 {
        return 5;
    }
    index[low - 1] as usize
}

// Past the rows from a place on whose first character is lower than the text's.
fn past_lower(rules: &[u8], from: usize, w: &[u32]) -> usize
    ensures { seek rules.now w.now (offsets_from rules.now result)
        ≡ seek rules.now w.now (offsets_from rules.now from) }
{
    let mut at = from;
    if 0 < w.len() {
        let sought = w[0];
        // a `while`: each turn moves by the row's own size
        while at < rules.len() {
            let Some(first) = first_of(rules, at) else {
                return at;
            };
            if sought <= first {
                return at;
            }
            at += rule_row::size(rules, at);
        }
    }
    at
}

// The first row that is not below a text, or the end of the table.
fn seek(rules: &[u8], index: &[u32], w: &[u32]) -> usize
    requires { Ready rules.now index.now }
    ensures { result ≡ first_at rules.now w.now }
{
    let start = walk_start(rules, index, w);
    let mut at = past_lower(rules, start, w);
    // a `while`: each turn moves by the row's own size
    while at < rules.len() {
        if !is_below(rules, at, w) {
            return at;
        }
        at += rule_row::size(rules, at);
    }
    rules.len()
}

// Does the row's source start with a text?
fn starts_with(rules: &[u8], row: usize, w: &[u32]) -> bool
    ensures { result ≡ starts w.now (rule_source (drop row rules.now)) }
{
    let count = rule_row::source_len(rules, row);
    for i in 0..w.len() {
        if count <= i {
            return false;
        }
        if base::three(rules, row, 6 + 3 * i) != w[i] {
            return false;
        }
    }
    true
}

// What the table has of a text: its rows stand where a search stops, and a longer source that starts with it right behind.
pub fn look_up(rules: &[u8], index: &[u32], w: &[u32]) -> Found
    requires { Ready rules.now index.now }
    ensures { (result.first ≡ first_at rules.now w.now)
        × (result.count ≡ equal_rows rules.now w.now)
        × (result.more ≡ has_longer w.now (rules_of rules.now)) }
{
    let first = seek(rules, index, w);
    let mut at = first;
    let mut count: usize = 0;
    // a `while`: each turn moves by the row's own size
    while at < rules.len() {
        if !is_equal(rules, at, w) {
            let more = starts_with(rules, at, w);
            return Found { first, count, more };
        }
        at += rule_row::size(rules, at);
        count += 1;
    }
    Found {
        first,
        count,
        more: false,
    }
}
