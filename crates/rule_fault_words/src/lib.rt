// What the faults of a rule table are called. Every program that tells of one says it by these words.
#![tactic(auto)]

ghost use Rattle.std.specs.Prelude.{◌≡◌};
ghost use Rattle.rule_fault_words.specs.Called.{fault_words};

use rule_row_faults::Fault;

// The kind of a fault, as a part of a sentence.
pub fn fault_words(fault: Fault) -> &'static str
    ensures { result.now ≡ fault_words fault }
{
    match fault {
        Fault::Length => "a length that does not fit",
        Fault::Range => "a flag or count out of its range",
        Fault::Letter => "a source character or language code that is none",
        Fault::Byte => "a byte of a target text that is not printable",
        Fault::Order => "a source below the one before it",
        Fault::Rows => "a row too many",
    }
}
