// Whether the fields of a rule row are right: yes or no, each field found by the end of the one before it, with no word on
// what is wrong. Where all bytes of a field are known to lie in the table, none of them is asked for its place.
#![tactic(auto)]

ghost use Rattle.std.specs.Prelude.{◌≡◌, [], ◌+◌, ◌-◌, ◌*◌, ◌/◌, ◌<◌, ◌≤◌, length, get_or, take, drop};
ghost use Rattle.base.specs.Lists.{all};
ghost use Rattle.base.specs.Rows.{counted};
ghost use Rattle.definition.specs.Utf8.{scalar};
ghost use Rattle.definition.specs.Blocks.{small};
ghost use Rattle.definition.specs.RuleRows.{printable, three_at, code_of, rule_size, codes_at, target_at, rule_right};
ghost use Rattle.rule_row.specs.Sizes.{size_limit};
ghost use Rattle.rule_row_test.specs.Texts.{Walked};
ghost use Rattle.rule_row_test.specs.Fields.{Told, Tail, Coded, Asked};

// A row's size, for those who know that both of its bytes are there.
#[tactic(auto, unfolding(definition::specs::RuleRows::rule_size))]
pub fn size_there(s: &[u8], row: usize) -> usize
    requires { row + 1 < length s.now }
    ensures { (result ≡ rule_size (drop row s.now)) × (result < size_limit) }
{
    2 + (base::at_there(s, row, 0) * 256 + base::at_there(s, row, 1)) as usize
}

// Whether all bytes from a place to another may stand in a target text.
pub fn all_printable(s: &[u8], from: usize, to: usize) -> bool
    requires { (from ≤ to) × (to ≤ length s.now) }
    ensures { result ≡ all printable (take (to - from) (drop from s.now)) }
{
    s[from..to]
        .iter()
        .all(|b| rule_row_faults::printable(*b as u32))
}

// Whether all numbers of three bytes from a place to another are scalar values.
fn all_scalar(s: &[u8], from: usize, to: usize) -> bool
    requires { (from + 3 * ((to - from) / 3) ≡ to) × (to ≤ length s.now) }
    ensures { result ≡ all scalar (counted three_at 3 ((to - from) / 3) (drop from s.now)) }
{
    let mut at = from;
    // places three bytes apart: a `for` with `step_by` would need its own proof that it ends, and would be no shorter
    while at < to {
        if !table_blocks::scalar(base::three_there(s, at, 0)) {
            return false;
        }
        at += 3;
    }
    true
}

// Whether all language codes from a place to another are three letters each. It asks other bytes than `all_scalar`: one function
// for both would take the test as a closure, and its contract would have to say what that computes.
fn all_codes(s: &[u8], from: usize, to: usize) -> bool
    requires { (from + 3 * ((to - from) / 3) ≡ to) × (to ≤ length s.now) }
    ensures { result ≡ all (all small) (counted code_of 3 ((to - from) / 3) (drop from s.now)) }
{
    let mut at = from;
    // places three bytes apart: a `for` with `step_by` would need its own proof that it ends, and would be no shorter
    while at < to {
        if !rule_row_faults::code_letters(s, at, 0) {
            return false;
        }
        at += 3;
    }
    true
}

// Past as many texts from a place on, or none where one of them is not right or reaches past `end`.
fn past_texts(s: &[u8], from: usize, end: usize, count: u32) -> Option<usize>
    requires { (from ≤ end) × (end ≤ length s.now) }
    ensures { Walked s.now end count from result }
{
    let mut at = from;
    for _turn in 0..count {
        if end <= at {
            return None;
        }
        let n = base::at_there(s, at, 0);
        if rule_row_faults::MOST_TARGET < n {
            return None;
        }
        let to = at + 1 + n as usize;
        if end < to {
            return None;
        }
        if !all_printable(s, at + 1, to) {
            return None;
        }
        at = to;
    }
    Some(at)
}

// Whether the texts of a row are right and end where it does: its targets, then its alternatives.
#[tactic(auto, using(crate::proofs::Alternatives::many_alternatives))]
fn texts_right(s: &[u8], row: usize, target: usize, end: usize) -> bool
    requires { (target ≡ row + target_at (drop row s.now)) × (end ≡ row + rule_size (drop row s.now))
        × (target < end) × (end ≤ length s.now) × (get_or (drop row s.now) 2 0 < 128) }
    ensures { Told (Tail (drop row s.now)) (drop row s.now) result }
{
    let flags = base::at_there(s, row, 2);
    let Some(others) = past_texts(s, target, end, flags / 32 % 2 + flags / 64) else {
        return false;
    };
    if end <= others {
        return false;
    }
    let count = base::at_there(s, others, 0);
    if rule_row_faults::MOST_ALTERNATIVES < count {
        return false;
    }
    let Some(past) = past_texts(s, others + 1, end, count) else {
        return false;
    };
    past == end
}

// Whether the language codes of a row are right, and its texts.
fn codes_right(s: &[u8], row: usize, codes: usize, end: usize) -> bool
    requires { (codes ≡ row + codes_at (drop row s.now)) × (end ≡ row + rule_size (drop row s.now))
        × (codes < end) × (end ≤ length s.now) × (get_or (drop row s.now) 2 0 < 128) }
    ensures { Told (Coded (drop row s.now)) (drop row s.now) result }
{
    let count = base::at_there(s, codes, 0);
    if rule_row_faults::MOST_CODES < count {
        return false;
    }
    let target = codes + 1 + 3 * count as usize;
    if end <= target {
        return false;
    }
    all_codes(s, codes + 1, target) && texts_right(s, row, target, end)
}

// Where the characters of a source begin that are still to be asked: past the first where it lies below the surrogates.
fn asked_from(s: &[u8], row: usize) -> usize
    requires { row + 9 ≤ length s.now }
    ensures { Asked (drop row s.now) row result }
{
    if base::three_there(s, row, 6) < 0xD800 {
        row + 9
    } else {
        row + 6
    }
}

// Whether all fields of the row at `row` are right, wherever its source stands in order.
pub fn fields_right(s: &[u8], row: usize) -> bool
    requires { row ≤ length s.now }
    ensures { result ≡ rule_right [] (drop row s.now) }
{
    let room = s.len() - row;
    if room < 11 {
        return false;
    }
    let size = size_there(s, row);
    if room < size {
        return false;
    }
    if 127 < base::at_there(s, row, 2) {
        return false;
    }
    let count = base::at_there(s, row, 5);
    if count == 0 {
        return false;
    }
    if rule_row::MOST_SOURCE < count {
        return false;
    }
    let end = row + size;
    let codes = row + 6 + 3 * count as usize;
    if end <= codes {
        return false;
    }
    all_scalar(s, asked_from(s, row), codes) && codes_right(s, row, codes, end)
}
