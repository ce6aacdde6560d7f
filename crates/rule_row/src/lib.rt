// One row of the rule table (dicts/model.rs): its fields and its texts.
#![tactic(auto)]

ghost use Rattle.std.specs.Prelude.{◌≡◌, true, ◌+◌, ◌<◌, ◌≤◌, ltb, length, get_or, drop, []};
ghost use Rattle.base.specs.Big.{offset_limit};
ghost use Rattle.definition.specs.RuleRows.{rises, rule_size, rule_flag, rule_count, rule_source, source_count};
ghost use Rattle.definition.specs.RuleRows.{target_bit, end_target_bit, target_at, end_target_at, others_at};
ghost use Rattle.definition.specs.RuleRows.{codes_at, codes_count, past_text, text_size, text_of};
ghost use Rattle.definition.specs.Places.{Placed};
ghost use Rattle.rule_row.specs.Sizes.{size_limit};
ghost use Rattle.rule_row.specs.Rise.{Ends, Level, Word};
ghost use Rattle.rule_row.specs.Others.{others, Other, other_at};

// Characters of a source, at most (document 01).
pub const MOST_SOURCE: u32 = 16;

// Bits of its flags: only and not at the start of a word, only and not at its end, only for a whole word; a target, and
// one for the end of a syllable, are there.
pub const START_ONLY_BIT: u32 = 0;

pub const NOT_START_BIT: u32 = 1;

pub const END_ONLY_BIT: u32 = 2;

pub const NOT_END_BIT: u32 = 3;

pub const WHOLE_WORD_BIT: u32 = 4;

pub const TARGET_BIT: u32 = 5;

pub const END_TARGET_BIT: u32 = 6;

// A row's size: two bytes count what follows them.
#[tactic(auto, unfolding(definition::specs::RuleRows::rule_size))]
pub fn size(rules: &[u8], row: usize) -> usize
    ensures { (result ≡ rule_size (drop row rules.now)) × (result < size_limit) }
{
    2 + base::two(rules, row, 0) as usize
}

// Bit `k` of a row's flags.
#[tactic(auto, unfolding(definition::specs::RuleRows::rule_flag))]
pub fn flag(rules: &[u8], row: usize, k: u32) -> bool
    requires { k < 8 }
    ensures { result ≡ rule_flag (drop row rules.now) k }
{
    base::bit(base::at(rules, row, 2), k)
}

// A row's restriction count.
#[tactic(auto, unfolding(definition::specs::RuleRows::rule_count))]
pub fn count(rules: &[u8], row: usize) -> u32
    ensures { result ≡ rule_count (drop row rules.now) }
{
    base::two(rules, row, 3)
}

// How many characters a row's source has.
#[tactic(auto, unfolding(definition::specs::RuleRows::source_count))]
pub fn source_len(rules: &[u8], row: usize) -> usize
    ensures { (result ≡ source_count (drop row rules.now)) × (result < 256) }
{
    base::at(rules, row, 5) as usize
}

// Where a row's codes begin, and how many there are.
#[tactic(auto, unfolding(definition::specs::RuleRows::codes_at))]
pub fn codes_at(rules: &[u8], row: usize) -> usize
    ensures { (result ≡ codes_at (drop row rules.now)) × (result < 772) }
{
    6 + 3 * source_len(rules, row)
}

#[tactic(auto, unfolding(definition::specs::RuleRows::codes_count_from))]
pub fn codes_count(rules: &[u8], row: usize) -> usize
    ensures { (result ≡ codes_count (drop row rules.now)) × (result < 256) }
{
    base::at(rules, row, codes_at(rules, row)) as usize
}

// Where the characters end that the sources of two rows both have.
fn both_end(rules: &[u8], a: usize, b: usize) -> usize
    ensures { Ends (drop a rules.now) (drop b rules.now) result × (result < 772) }
{
    codes_at(rules, a).min(codes_at(rules, b))
}

// Whether the table reaches past offset `o` of a row.
fn reaches(rules: &[u8], row: usize, o: usize) -> bool
    ensures { result ≡ ltb (row + o) (length rules.now) }
{
    row < rules.len() && o < rules.len() - row
}

// Four bytes of a row as one number, the last the highest: to tell whether they are alike, a compiler compares words as they
// stand in memory.
fn word(rules: &[u8], row: usize, o: usize) -> u32
    requires { row + o + 3 < length rules.now }
    ensures { Word (drop row rules.now) o result }
{
    let low = base::at_there(rules, row, o) + base::at_there(rules, row, o + 1) * 256;
    low + base::at_there(rules, row, o + 2) * 65536 + base::at_there(rules, row, o + 3) * 16777216
}

// Past characters at the front of two sources that are alike. Each is compared together with the byte behind it, four bytes
// at once; where only that byte differs, the walk ends early, and the character is still to be compared.
fn past_alike(rules: &[u8], a: usize, b: usize, end: usize) -> usize
    requires { Ends (drop a rules.now) (drop b rules.now) end × (a + end < length rules.now) × (b + end < length rules.now) }
    ensures { Level (drop a rules.now) (drop b rules.now) result × (result ≤ end) }
{
    let mut o = 6;
    // the place where it stops is the answer, so no `for` over places is plainer
    while o < end && word(rules, a, o) == word(rules, b, o) {
        o += 3;
    }
    o
}

// Whether two sources rise, whose characters before `from` are alike. It is called twice, so a compiler leaves it a function by
// itself, and the walk over the rows keeps its registers.
fn rest_rises(rules: &[u8], a: usize, b: usize, from: usize, end: usize) -> bool
    requires { Ends (drop a rules.now) (drop b rules.now) end × Level (drop a rules.now) (drop b rules.now) from
        × (from ≤ end) × (end < 772) }
    ensures { result ≡ rises (rule_source (drop a rules.now)) (rule_source (drop b rules.now)) }
{
    let mut o = from;
    // places three bytes apart: a `for` with `step_by` would need its own proof that it ends, and would be no shorter
    while o < end {
        let x = base::three(rules, a, o);
        let y = base::three(rules, b, o);
        if x < y {
            return true;
        }
        if y < x {
            return false;
        }
        o += 3;
    }
    // a prefix comes first
    source_len(rules, a) <= source_len(rules, b)
}

// Does the source of the row at `a` come before that of the row at `b`, or equal it? No character is read past a source,
// and past the table's end a byte is 0, as the definition has it.
pub fn sources_rise(rules: &[u8], a: usize, b: usize) -> bool
    ensures { result ≡ rises (rule_source (drop a rules.now)) (rule_source (drop b rules.now)) }
{
    let end = both_end(rules, a, b);
    if reaches(rules, a, end) && reaches(rules, b, end) {
        let from = past_alike(rules, a, b, end);
        return rest_rises(rules, a, b, from, end);
    }
    rest_rises(rules, a, b, 6, end)
}

// Where a row's targets and its alternatives begin, each behind what stands before it.
#[tactic(auto, unfolding(definition::specs::RuleRows::target_from))]
pub fn target_at(rules: &[u8], row: usize) -> usize
    ensures { (result ≡ target_at (drop row rules.now)) × (result < 2000) }
{
    codes_at(rules, row) + 1 + 3 * codes_count(rules, row)
}

// Past the text at `o`, where the row has one.
#[tactic(auto, unfolding(definition::specs::RuleRows::past_text, definition::specs::RuleRows::text_size))]
fn past_text(rules: &[u8], row: usize, o: usize, there: bool) -> usize
    requires { o < offset_limit }
    ensures { (result ≡ past_text there o (drop row rules.now)) × (result ≤ o + 256) }
{
    if there {
        o + (1 + base::at(rules, row, o) as usize)
    } else {
        o
    }
}

#[tactic(auto, unfolding(definition::specs::RuleRows::end_target_from))]
pub fn end_target_at(rules: &[u8], row: usize) -> usize
    ensures { (result ≡ end_target_at (drop row rules.now)) × (result < 2256) }
{
    past_text(
        rules,
        row,
        target_at(rules, row),
        flag(rules, row, TARGET_BIT),
    )
}

#[tactic(auto, unfolding(definition::specs::RuleRows::others_from))]
pub fn others_at(rules: &[u8], row: usize) -> usize
    ensures { (result ≡ others_at (drop row rules.now)) × (result < 2512) }
{
    past_text(
        rules,
        row,
        end_target_at(rules, row),
        flag(rules, row, END_TARGET_BIT),
    )
}

// The text at `o` of a row, a part of the table.
fn text<'a>(rules: &'a [u8], row: usize, o: usize) -> &'a [u8]
    requires { o + text_size (drop o (drop row rules.now)) ≤ length (drop row rules.now) }
    ensures { result.now ≡ text_of (drop o (drop row rules.now)) }
{
    let n = base::at(rules, row, o) as usize;
    let from = row + o + 1;
    let to = from + n;
    &rules[from..to]
}

// The target of a row that has one, and the one for the end of a syllable.
pub fn target_text<'a>(rules: &'a [u8], row: usize) -> &'a [u8]
    requires { Placed (drop row rules.now) × (rule_flag (drop row rules.now) target_bit ≡ true) }
    ensures { result.now ≡ text_of (drop (target_at (drop row rules.now)) (drop row rules.now)) }
{
    text(rules, row, target_at(rules, row))
}

pub fn end_target_text<'a>(rules: &'a [u8], row: usize) -> &'a [u8]
    requires { Placed (drop row rules.now) × (rule_flag (drop row rules.now) end_target_bit ≡ true) }
    ensures { result.now ≡ text_of (drop (end_target_at (drop row rules.now)) (drop row rules.now)) }
{
    text(rules, row, end_target_at(rules, row))
}

// How many alternatives a row has.
pub fn others_count(rules: &[u8], row: usize) -> usize
    ensures { (result ≡ length (others (drop row rules.now))) × (result < 256) }
{
    base::at(rules, row, others_at(rules, row)) as usize
}

// Where alternative `k` begins.
fn other_at(rules: &[u8], row: usize, k: usize) -> usize
    requires { Other (drop row rules.now) k }
    ensures { result ≡ other_at (drop row rules.now) k }
{
    let mut o = others_at(rules, row) + 1;
    for _turn in 0..k {
        o += 1 + base::at(rules, row, o) as usize;
    }
    o
}

// Alternative `k` of a row, a part of the table.
pub fn other_text<'a>(rules: &'a [u8], row: usize, k: usize) -> &'a [u8]
    requires { Other (drop row rules.now) k }
    ensures { result.now ≡ get_or (others (drop row rules.now)) k [] }
{
    text(rules, row, other_at(rules, row, k))
}
