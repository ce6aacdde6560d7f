// Characters that several of the engine's steps ask for.

// Outside of a text stands a space too.
pub const SPACE: u32 = 0x20;

// U+0300, the grave over a Coptic letter.
pub const GRAVE: u32 = 0x0300;

// U+0A71, addak, which doubles a consonant.
pub const ADDAK: u32 = 0x0A71;

// U+0E2D, o ang.
pub const O_ANG: u32 = 0x0E2D;

// U+3063 and U+30C3, small tsu of the two, which doubles a consonant.
pub const HIRAGANA_TSU: u32 = 0x3063;

pub const KATAKANA_TSU: u32 = 0x30C3;

// U+3083, U+3085 and U+3087, small ya, yu and yo of hiragana, and those of katakana.
pub const HIRAGANA_YA: u32 = 0x3083;

pub const HIRAGANA_YU: u32 = 0x3085;

pub const HIRAGANA_YO: u32 = 0x3087;

pub const KATAKANA_YA: u32 = 0x30E3;

pub const KATAKANA_YU: u32 = 0x30E5;

pub const KATAKANA_YO: u32 = 0x30E7;

// U+30FC, the mark that lengthens a kana's vowel.
pub const LONG_MARK: u32 = 0x30FC;
