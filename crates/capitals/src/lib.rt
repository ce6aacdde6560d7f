// When the capitalizing step of the expansion acts (romanize.rs), as the Python has it: over one character before a
// lower-case one, on a romanization in upper case. What it does is `rom::make_small`.
#![tactic(auto)]

ghost use Rattle.std.specs.Prelude.{◌≡◌, ◌+◌, ◌/◌, ◌≤◌, length};
ghost use Rattle.base.specs.Bits.{flagged};
ghost use Rattle.definition.specs.Expansion.{upper_case, capitalizes};
ghost use Rattle.words.specs.Given.{World, kinds, size_in, kind_in, Lined};
ghost use Rattle.words.specs.Choosing.{choices_of};
ghost use Rattle.capitals.specs.Spans.{over};

use words::{Choices, Span};

// Letters: A to Z, and a to z.
const FIRST_CAPITAL: u32 = 65;

const LAST_CAPITAL: u32 = 90;

const FIRST_SMALL: u32 = 97;

const LAST_SMALL: u32 = 122;

// Is a romanization in upper case? It has a capital, and no small letter; other bytes are not asked. Most have a small letter in front,
// which ends the first question there, so that this is asked first.
#[tactic(auto, using(crate::specs::Ways::some_small, crate::specs::Ways::no_small))]
fn is_upper_case(text: &[u8]) -> bool
    ensures { result ≡ upper_case text.now }
{
    !rom::any_between(text, FIRST_SMALL, LAST_SMALL)
        && rom::any_between(text, FIRST_CAPITAL, LAST_CAPITAL)
}

// Is the character at a place of the line lower case?
fn is_lower_at(line: &[u32], i: usize) -> bool
    requires { i ≤ length line.now / 2 }
    ensures { result ≡ flagged (kind_in line.now i / 1024) 7 }
{
    table_classes::class_flag(words::kind_at(line, i), table_classes::LOWERCASE)
}

// Do the later letters of a span's text become small? Behind the line's text stands a space, which is not lower case.
pub fn makes_small(line: &[u32], choices: Choices, text: &[u8], span: Span) -> bool
    requires { span.to ≤ size_in line.now }
    ensures { (x : World) → Lined x line.now → result ≡ capitalizes (choices_of choices) (kinds x) x.text (over span text.now) }
{
    if choices.capitals != 1 || span.from + 1 != span.to {
        return false;
    }
    is_lower_at(line, span.to + 1) && is_upper_case(text)
}
