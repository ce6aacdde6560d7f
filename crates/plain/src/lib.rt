// Is a text left as it is? For most spans neither the vowel step nor the expansion does anything: their script has no vowel of its
// own, and nothing stands around them that the expansion asks for. `false` is no answer: the step is to be asked then.
#![tactic(auto)]

ghost use Rattle.std.specs.Prelude.{true, false, ◌≡◌, ◌<◌, ◌≤◌, length, take};
ghost use Rattle.std.proofs.Math.Option.{none};
ghost use Rattle.definition.specs.VowelRows.{vowels_of};
ghost use Rattle.definition.specs.Vowels.{vowel_row};
ghost use Rattle.definition.specs.Expansion.{small_tsu};
ghost use Rattle.table_vowels.specs.Told.{FineVowels};
ghost use Rattle.words.specs.Given.{World, kinds, size_in, Lined};
ghost use Rattle.words.specs.Choosing.{choices_of};
ghost use Rattle.plain.specs.Plain.{Unasked, Unspaced, Alone, Untouched, Voiceless};

use words::characters::{
    ADDAK, GRAVE, HIRAGANA_TSU, HIRAGANA_YA, HIRAGANA_YO, HIRAGANA_YU, KATAKANA_TSU, KATAKANA_YA,
    KATAKANA_YO, KATAKANA_YU, LONG_MARK, SPACE,
};
use words::{Choices, Span};

// May a character double what follows it?
#[tactic(auto, using(crate::specs::Ways::no_tsu))]
fn doubles(c: u32) -> bool
    ensures { result ≡ false → small_tsu c ≡ false }
{
    matches!(c, ADDAK | HIRAGANA_TSU | KATAKANA_TSU)
}

// Does the expansion ask for a character behind a span?
fn is_asked_behind(c: u32) -> bool
    ensures { result ≡ false → Unasked c }
{
    matches!(
        c,
        GRAVE
            | HIRAGANA_YA
            | HIRAGANA_YU
            | HIRAGANA_YO
            | KATAKANA_YA
            | KATAKANA_YU
            | KATAKANA_YO
            | LONG_MARK
    )
}

// Do the first `n` bytes of an array begin or end with a space?
fn is_spaced(bytes: &[u8], n: usize) -> bool
    requires { n ≤ length bytes.now }
    ensures { result ≡ false → Unspaced (take n bytes.now) }
{
    0 < n && (base::byte(bytes, 0) == SPACE || base::byte(bytes, n - 1) == SPACE)
}

// Has a script a vowel of its own?
fn has_vowel(vowels: &[u8], script: u32) -> bool
    requires { FineVowels vowels.now }
    ensures { result ≡ false → vowel_row (vowels_of vowels.now) script ≡ none }
{
    table_vowels::vowel_row(vowels, script).is_some()
}

// Does something stand before or behind a span that the expansion asks for?
fn is_met(line: &[u32], span: Span) -> bool
    requires { span.to ≤ size_in line.now }
    ensures { result ≡ false → (x : World) → Lined x line.now → Alone (kinds x) x.text span.from span.to }
{
    let behind = span.to + 1;
    is_asked_behind(words::number_at(line, behind))
        || doubles(words::number_at(line, span.from))
        || table_classes::class_flag(words::kind_at(line, behind), table_classes::VIRAMA)
}

// Does the expansion leave a text as it is, the first `n` bytes of an array?
pub fn is_untouched(choices: Choices, line: &[u32], bytes: &[u8], n: usize, span: Span) -> bool
    requires { (n ≤ length bytes.now) × (span.to ≤ size_in line.now) }
    ensures { result ≡ true → (x : World) → Lined x line.now
        → Untouched x (choices_of choices) (take n bytes.now) span.from span.to }
{
    let script = table_classes::script(words::kind_at(line, span.from + 1));
    if choices.capitals == 1 || script == table_classes::THAI {
        return false;
    }
    !is_met(line, span) && !is_spaced(bytes, n)
}

// Does the vowel step leave every text over a span as it is?
pub fn is_voiceless(vowels: &[u8], line: &[u32], span: Span) -> bool
    requires { FineVowels vowels.now × (span.to ≤ size_in line.now) }
    ensures { result ≡ true → (x : World) → Lined x line.now → Voiceless x (vowels_of vowels.now) span.from span.to }
{
    let script = table_classes::script(words::kind_at(line, span.from + 1));
    !has_vowel(vowels, script)
}
