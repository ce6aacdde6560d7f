// What the three tables share: the answer of a check, the block's header, and tests of a character or a letter.
#![tactic(auto)]

ghost use Rattle.std.specs.Prelude.{◌≡◌, ◌-◌, ◌≤◌, length, take, drop};
ghost use Rattle.base.specs.Lists.{all};
ghost use Rattle.definition.specs.Texts.{latin};
ghost use Rattle.definition.specs.Utf8.{scalar};
ghost use Rattle.definition.specs.Blocks.{version_1, headed, small};

// Bytes of a block's header, and the version that it begins with.
pub const HEAD_BYTES: usize = 5;

const VERSION_1: u32 = 1;

// Rows of a rule table and of a class table, at most.
pub const MOST_ROWS: u32 = 8192;

// A table that is not valid: its first fault is in the row at this offset (0 for the header).
#[derive(Clone, Copy)]
pub struct TableFault {
    pub at: usize,
}

// A scalar value: no surrogate, and none past U+10FFFF.
#[tactic(auto, unfolding(definition::specs::Utf8::scalar))]
pub fn scalar(c: u32) -> bool
    ensures { result ≡ scalar c }
{
    matches!(c, 0..=0xD7FF | 0xE000..=0x10FFFF)
}

// A-Z or a-z.
#[tactic(auto, unfolding(definition::specs::Texts::latin))]
pub fn latin(c: u32) -> bool
    ensures { result ≡ latin c }
{
    matches!(c, 0x41..=0x5A | 0x61..=0x7A)
}

// a-z.
#[tactic(auto, unfolding(definition::specs::Blocks::small))]
pub fn small(c: u32) -> bool
    ensures { result ≡ small c }
{
    matches!(c, 0x61..=0x7A)
}

// Whether all bytes from a place to another are a-z.
pub fn all_small(s: &[u8], from: usize, to: usize) -> bool
    requires { (from ≤ to) × (to ≤ length s.now) }
    ensures { result ≡ all small (take (to - from) (drop from s.now)) }
{
    (from..to).all(|at| small(base::byte(s, at)))
}

// The block's header: version 1, and a length that fills the slice.
#[tactic(auto, unfolding(definition::specs::Blocks::headed), using(crate::specs::Held::held, crate::specs::Held::short))]
pub fn headed(table: &[u8]) -> bool
    ensures { result ≡ headed version_1 table.now }
{
    HEAD_BYTES <= table.len()
        && base::byte(table, 0) == VERSION_1
        && HEAD_BYTES as u64 + base::four(table, 0, 1) == table.len() as u64
}
