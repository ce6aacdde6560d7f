// A row of the rule table read field by field (dicts/model.rs): its parts, or the first field that is faulty.
#![tactic(auto)]

ghost use Rattle.std.specs.Prelude.{◌≡◌, true, ◌&&◌, ◌+◌, ◌<◌, ◌≤◌, leb, length, drop, get_or};
ghost use Rattle.definition.specs.Refusals.{refused_range};
ghost use Rattle.definition.specs.RuleRows.{printable, source_count};
ghost use Rattle.definition.specs.RuleRows.{target_at, end_target_at, others_at};
ghost use Rattle.definition.specs.RuleFields.{field, fields, code_small, read_text, read_texts, read_text_if, read_flags};
ghost use Rattle.definition.specs.RuleFields.{read_source, read_codes, read_others, read_end, read_tail, read_parts, read_row};
ghost use Rattle.rule_row.specs.Sizes.{size_limit};
ghost use Rattle.rule_row_faults.specs.Kinds.{fault_number, kind_size, kind_right, kind_number, read_counted, read_means};
ghost use Rattle.rule_row_faults.specs.Row.{row_means, Parted};

// What a row may hold at most (document 01).
pub const MOST_CODES: u32 = 8;

pub const MOST_ALTERNATIVES: u32 = 8;

pub const MOST_TARGET: u32 = 200;

// The bit of its flags that stays 0.
const ZERO_BIT: u32 = 7;

// What is wrong with a rule table: its header or a length, a flag or count out of its range, a character of a source or a
// language code, a byte of a target text, the order of rows, or too many rows. The last two are no row's by itself.
#[derive(Clone, Copy, Debug, PartialEq, Eq)]
pub enum Fault {
    Length,
    Range,
    Letter,
    Byte,
    Order,
    Rows,
}

impl Fault {
    // The number that refuses a rule table with this fault, as the definition names it.
    pub fn number(self) -> u64
        ensures { result ≡ fault_number self }
    {
        match self {
            Fault::Length => 20,
            Fault::Range => 21,
            Fault::Letter => 22,
            Fault::Byte => 23,
            Fault::Order => 24,
            Fault::Rows => 25,
        }
    }
}

// A fault, and where its field begins: an offset in the row, or in the table where a whole table was read.
#[derive(Clone, Copy, Debug, PartialEq, Eq)]
pub struct RuleFault {
    pub kind: Fault,
    pub at: usize,
}

// The fields that come several at a time: characters of a source, language codes, bytes of a text.
#[derive(Clone, Copy)]
pub enum Kind {
    Character,
    Code,
    TextByte,
}

// The parts of a row: its size, the characters of its source, and where its target, the one for the end of a syllable and its
// alternatives begin, each in the row.
#[derive(Clone, Copy)]
pub struct RowParts {
    pub size: usize,
    pub source: usize,
    pub target: usize,
    pub ending: usize,
    pub others: usize,
}

// A byte, character or count in a range.
fn between(low: u32, c: u32, high: u32) -> bool
    ensures { result ≡ (leb low c && leb c high) }
{
    low <= c && c <= high
}

// A byte of a target text.
#[tactic(auto, unfolding(definition::specs::RuleRows::printable))]
pub fn printable(c: u32) -> bool
    ensures { result ≡ printable c }
{
    between(0x20, c, 0x7E)
}

// A field of `n` bytes at `o` of a row of size `z`: the next begins behind it, where it fits and is right.
#[tactic(auto, unfolding(definition::specs::RuleFields::field, base::specs::Pick::pick))]
fn field(z: usize, o: usize, n: usize, fault: Fault, ok: bool) -> Result<usize, RuleFault>
    requires { (o < size_limit) × (n < 4) }
    ensures { read_means result ≡ field z o n (fault_number fault) ok }
{
    if z < o + n {
        return Err(RuleFault {
            kind: Fault::Length,
            at: o,
        });
    }
    if !ok {
        return Err(RuleFault { kind: fault, at: o });
    }
    Ok(o + n)
}

// Are the three bytes of a language code, which the table has, all letters?
pub fn code_letters(rules: &[u8], row: usize, o: usize) -> bool
    requires { (o < size_limit) × (o + 3 ≤ length (drop row rules.now)) }
    ensures { result ≡ code_small (drop o (drop row rules.now)) }
{
    table_blocks::small(base::at_there(rules, row, o))
        && table_blocks::small(base::at_there(rules, row, o + 1))
        && table_blocks::small(base::at_there(rules, row, o + 2))
}

// A kind's bytes, its fault, and whether such a field is right.
fn kind_size(kind: Kind) -> usize
    ensures { (result ≡ kind_size kind) × (0 < result) × (result < 4) }
{
    match kind {
        Kind::Character | Kind::Code => 3,
        Kind::TextByte => 1,
    }
}

fn kind_fault(kind: Kind) -> Fault
    ensures { fault_number result ≡ kind_number kind }
{
    match kind {
        Kind::Character | Kind::Code => Fault::Letter,
        Kind::TextByte => Fault::Byte,
    }
}

fn kind_right(rules: &[u8], row: usize, o: usize, kind: Kind) -> bool
    requires { (o < size_limit) × (o + kind_size kind ≤ length (drop row rules.now)) }
    ensures { result ≡ kind_right kind (drop o (drop row rules.now)) }
{
    match kind {
        Kind::Character => table_blocks::scalar(base::three_there(rules, row, o)),
        Kind::Code => code_letters(rules, row, o),
        Kind::TextByte => printable(base::at_there(rules, row, o)),
    }
}

// As many fields of a kind.
fn read_fields(
    rules: &[u8],
    row: usize,
    z: usize,
    n: usize,
    o: usize,
    kind: Kind,
) -> Result<usize, RuleFault>
    requires { (z < size_limit) × (o ≤ z) × (z ≤ length (drop row rules.now)) }
    ensures { read_means result ≡ fields (kind_right kind) (kind_size kind) (kind_number kind) z (drop row rules.now) n o }
{
    let size = kind_size(kind);
    let fault = kind_fault(kind);
    let mut at = o;
    for _turn in 0..n {
        if z < at + size {
            return Err(RuleFault {
                kind: Fault::Length,
                at,
            });
        }
        if !kind_right(rules, row, at, kind) {
            return Err(RuleFault { kind: fault, at });
        }
        at += size;
    }
    Ok(at)
}

// A count or a length byte, from `least` to `most`.
#[tactic(auto, unfolding(definition::specs::RuleFields::field, base::specs::Pick::pick))]
fn read_count(
    rules: &[u8],
    row: usize,
    z: usize,
    o: usize,
    least: u32,
    most: u32,
) -> Result<usize, RuleFault>
    requires { (z < size_limit) × (o ≤ z) × (z ≤ length (drop row rules.now)) }
    ensures { read_means result ≡ field z o 1 refused_range
        (leb least (get_or (drop row rules.now) o 0) && leb (get_or (drop row rules.now) o 0) most) }
{
    if z <= o {
        return Err(RuleFault {
            kind: Fault::Length,
            at: o,
        });
    }
    let n = base::at_there(rules, row, o);
    field(z, o, 1, Fault::Range, between(least, n, most))
}

// A count and as many fields of a kind. A fault is the answer as it stands.
#[tactic(auto, unfolding(definition::specs::RuleFields::and_then))]
fn read_counted(
    rules: &[u8],
    row: usize,
    z: usize,
    o: usize,
    least: u32,
    most: u32,
    kind: Kind,
) -> Result<usize, RuleFault>
    requires { (z < size_limit) × (o ≤ z) × (z ≤ length (drop row rules.now)) }
    ensures { read_means result ≡ read_counted kind least most z (drop row rules.now) o }
{
    let next = read_count(rules, row, z, o, least, most)?;
    let n = base::at(rules, row, o) as usize;
    read_fields(rules, row, z, n, next, kind)
}

// A text: its length byte, then its bytes.
#[tactic(auto, using(crate::proofs::Chains::up_to), unfolding(definition::specs::RuleFields::read_text))]
fn read_text(rules: &[u8], row: usize, z: usize, o: usize) -> Result<usize, RuleFault>
    requires { (z < size_limit) × (o ≤ z) × (z ≤ length (drop row rules.now)) }
    ensures { read_means result ≡ read_text z (drop row rules.now) o }
{
    read_counted(rules, row, z, o, 0, MOST_TARGET, Kind::TextByte)
}

// As many texts.
fn read_texts(rules: &[u8], row: usize, z: usize, n: usize, o: usize) -> Result<usize, RuleFault>
    requires { (z < size_limit) × (o ≤ z) × (z ≤ length (drop row rules.now)) }
    ensures { read_means result ≡ read_texts z (drop row rules.now) n o }
{
    let mut at = o;
    for _turn in 0..n {
        at = read_text(rules, row, z, at)?;
    }
    Ok(at)
}

// A text, where the row has one.
#[tactic(auto, unfolding(definition::specs::RuleFields::read_text_if, base::specs::Pick::pick))]
fn read_text_if(
    rules: &[u8],
    row: usize,
    z: usize,
    o: usize,
    there: bool,
) -> Result<usize, RuleFault>
    requires { (z < size_limit) × (o ≤ z) × (z ≤ length (drop row rules.now)) }
    ensures { read_means result ≡ read_text_if there z (drop row rules.now) o }
{
    if there {
        read_text(rules, row, z, o)
    } else {
        Ok(o)
    }
}

// The parts of a row: flags and restriction count.
#[tactic(auto, unfolding(definition::specs::RuleFields::read_flags, definition::specs::RuleFields::and_then))]
fn read_flags(rules: &[u8], row: usize, z: usize) -> Result<usize, RuleFault>
    requires { (2 ≤ z) × (z < size_limit) }
    ensures { read_means result ≡ read_flags z (drop row rules.now) }
{
    let zero = rule_row::flag(rules, row, ZERO_BIT);
    let o = field(z, 2, 1, Fault::Range, !zero)?;
    field(z, o, 2, Fault::Range, true)
}

// The source.
#[tactic(auto, unfolding(definition::specs::RuleFields::read_source))]
fn read_source(rules: &[u8], row: usize, z: usize, o: usize) -> Result<usize, RuleFault>
    requires { (z < size_limit) × (o ≤ z) × (z ≤ length (drop row rules.now)) }
    ensures { read_means result ≡ read_source z (drop row rules.now) o }
{
    read_counted(rules, row, z, o, 1, rule_row::MOST_SOURCE, Kind::Character)
}

// The language codes.
#[tactic(auto, using(crate::proofs::Chains::up_to), unfolding(definition::specs::RuleFields::read_codes))]
fn read_codes(rules: &[u8], row: usize, z: usize, o: usize) -> Result<usize, RuleFault>
    requires { (z < size_limit) × (o ≤ z) × (z ≤ length (drop row rules.now)) }
    ensures { read_means result ≡ read_codes z (drop row rules.now) o }
{
    read_counted(rules, row, z, o, 0, MOST_CODES, Kind::Code)
}

// The alternatives.
#[tactic(auto, using(crate::proofs::Chains::up_to), unfolding(definition::specs::RuleFields::read_others, definition::specs::RuleFields::and_then))]
fn read_others(rules: &[u8], row: usize, z: usize, o: usize) -> Result<usize, RuleFault>
    requires { (z < size_limit) × (o ≤ z) × (z ≤ length (drop row rules.now)) }
    ensures { read_means result ≡ read_others z (drop row rules.now) o }
{
    let next = read_count(rules, row, z, o, 0, MOST_ALTERNATIVES)?;
    let n = base::at(rules, row, o) as usize;
    read_texts(rules, row, z, n, next)
}

// Nothing is left over.
#[tactic(auto, unfolding(definition::specs::RuleFields::read_end, base::specs::Pick::pick))]
fn read_end(z: usize, o: usize) -> Result<usize, RuleFault>
    ensures { read_means result ≡ read_end z o }
{
    if o < z {
        return Err(RuleFault {
            kind: Fault::Length,
            at: o,
        });
    }
    Ok(o)
}

// The texts of a row from its target on, and its end.
#[tactic(auto, unfolding(definition::specs::RuleFields::read_tail, definition::specs::RuleFields::and_then))]
fn read_tail(rules: &[u8], row: usize, z: usize, o: usize) -> Result<usize, RuleFault>
    requires { (z < size_limit) × (o ≤ z) × (z ≤ length (drop row rules.now)) }
    ensures { read_means result ≡ read_tail z (drop row rules.now) o }
{
    let target = rule_row::flag(rules, row, rule_row::TARGET_BIT);
    let end_target_at = read_text_if(rules, row, z, o, target)?;
    let end_target = rule_row::flag(rules, row, rule_row::END_TARGET_BIT);
    let others_at = read_text_if(rules, row, z, end_target_at, end_target)?;
    let end = read_others(rules, row, z, others_at)?;
    read_end(z, end)
}

// All parts of a row that lies in the table.
#[tactic(auto, unfolding(definition::specs::RuleFields::read_parts, definition::specs::RuleFields::and_then))]
fn read_parts(rules: &[u8], row: usize, z: usize) -> Result<usize, RuleFault>
    requires { (2 ≤ z) × (z < size_limit) × (z ≤ length (drop row rules.now)) }
    ensures { read_means result ≡ read_parts z (drop row rules.now) }
{
    let source_at = read_flags(rules, row, z)?;
    let codes_at = read_source(rules, row, z, source_at)?;
    let target_at = read_codes(rules, row, z, codes_at)?;
    read_tail(rules, row, z, target_at)
}

// All fields of the row at `row`. One past the table's end is a fault of length at its start.
fn walk_row(rules: &[u8], row: usize) -> Result<usize, RuleFault>
    requires { row ≤ length rules.now }
    ensures { read_means result ≡ read_row (drop row rules.now) }
{
    let z = rule_row::size(rules, row);
    if rules.len() - row < z {
        return Err(RuleFault {
            kind: Fault::Length,
            at: 0,
        });
    }
    read_parts(rules, row, z)
}

// Where the parts of a row that ends at `size` lie in it.
fn row_parts(rules: &[u8], row: usize, size: usize) -> RowParts
    ensures { (result.size ≡ size) × (result.source ≡ source_count (drop row rules.now))
        × (result.target ≡ target_at (drop row rules.now))
        × (result.ending ≡ end_target_at (drop row rules.now))
        × (result.others ≡ others_at (drop row rules.now)) }
{
    RowParts {
        size,
        source: rule_row::source_len(rules, row),
        target: rule_row::target_at(rules, row),
        ending: rule_row::end_target_at(rules, row),
        others: rule_row::others_at(rules, row),
    }
}

// The row at `row`: its parts, or its first fault with its field's offset in the row.
#[tactic(auto, unfolding(crate::specs::Row::Parted))]
pub fn read_row(rules: &[u8], row: usize) -> Result<RowParts, RuleFault>
    requires { row ≤ length rules.now }
    ensures { (row_means result ≡ read_row (drop row rules.now)) × Parted (drop row rules.now) result }
{
    let size = walk_row(rules, row)?;
    Ok(row_parts(rules, row, size))
}
