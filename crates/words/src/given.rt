// What every question of the engine is asked of: the tables, the language code and what was made ready of them, and a stretch
// of the text.

ghost use Rattle.std.specs.Prelude.{◌<◌};
ghost use Rattle.words.specs.Given.{Prepared};

// The tables, a language code, and what was made ready of them: of each ASCII character whether it is a letter, the choices, and
// the indexes of both tables that have one. Rules and what was made ready fit one another. The Rust's `Dicts`.
#[derive(Clone, Copy)]
pub struct Dicts<'a> {
    pub rules: &'a [u8],
    pub classes: &'a [u8],
    pub vowels: &'a [u8],
    pub decompositions: &'a [u8],
    pub code: &'a [u8],
    pub ready: &'a [u32],
    pub ghost prepared: { Prepared rules.now ready.now },
}

// A stretch of the text, by the positions of its ends: at least one character.
#[derive(Clone, Copy)]
pub struct Span {
    pub from: usize,
    pub to: usize,
    pub ghost forward: { from < to },
}
