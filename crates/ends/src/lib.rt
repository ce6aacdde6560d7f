// What the vowel step asks of a romanization's bytes: where its two patterns lie, as positions, and the form chosen by them.
#![tactic(auto)]

ghost use Rattle.std.specs.Prelude.{◌≡◌, ℕ, Bool, [], ◌∷◌, ◌+◌, ◌<◌, ◌≤◌, eqb, length, take};
ghost use Rattle.std.proofs.Math.Seq.{slice};
ghost use Rattle.base.specs.Lists.{any};
ghost use Rattle.definition.specs.Limits.{most_bytes};
ghost use Rattle.definition.specs.Texts.{Text, consonants, vowels};
ghost use Rattle.definition.specs.Vowels.{bases, consonant_only, before_yo};
ghost use Rattle.rom.specs.Rom.{rom, held, Clean};
ghost use Rattle.ends.specs.Back.{run};
ghost use Rattle.ends.specs.Ends.{inherent, y_from, stem, kept};
ghost use Rattle.ends.specs.Shown.{Within, unmatched, shown, form_means};

// The three forms as positions: the romanization is the first `rom` bytes, the base stands from `from` to `to`, the
// base with its vowel from `from` to `end`; where `add`, the script's vowel comes behind it.
#[derive(Clone, Copy)]
pub struct Forms {
    pub rom: usize,
    pub from: usize,
    pub to: usize,
    pub end: usize,
    pub add: bool,
}

// One of the three forms of a romanization.
#[derive(Clone, Copy)]
pub enum Which {
    Rom,
    Base,
    Plus,
}

// The vowels that a script's own vowel may be: a, and under type AO also o.
fn is_inherent(ao: bool, c: u32) -> bool
    ensures { result ≡ inherent ao c }
{
    c == 97 || ao && c == 111
}

// Where the run of the characters that pass a test starts which ends before `to`.
fn run_from<F: Fn(u32) -> bool>(s: &[u8], to: usize, passes: F) -> usize
    requires callable { F.IsAlwaysCallable passes }
    requires within { to ≤ length s.now }
    ensures run { (q : ℕ → Bool) → ((c : ℕ) (b : Bool) → c < 256 → F.post passes c b → b ≡ q c) → result ≡ run q s.now to }
    ensures within { result ≤ to }
{
    for at in (0..to).rev() {
        if !passes(base::byte(s, at)) {
            return at + 1;
        }
    }
    0
}

// Where the first pattern's base before `to` starts, or `to` where no y is there.
fn base_with_y_from(s: &[u8], to: usize) -> usize
    requires { to ≤ length s.now }
    ensures { (result ≡ y_from s.now to) × (result ≤ to) }
{
    if to == 0 || base::byte(s, to - 1) != 121 {
        return to;
    }
    if to == 1 {
        return 0;
    }
    if rom::is_in(rom::BEFORE_Y, base::byte(s, to - 2)) {
        return to - 2;
    }
    to - 1
}

// The length without a hyphen at the end.
fn stem(s: &[u8]) -> usize
    ensures { (result ≡ stem s.now) × (result ≤ length s.now) }
{
    let n = s.len();
    if 0 < n && base::byte(s, n - 1) == 45 {
        return n - 1;
    }
    n
}

// How much stays under the second pattern: the hyphen goes where the span is one character and a letter is first.
fn kept(s: &[u8], one: bool, end: usize) -> usize
    requires { end ≡ stem s.now }
    ensures { (result ≡ kept one s.now) × (result ≤ length s.now) }
{
    let n = s.len();
    if end < n && one && table_blocks::latin(base::byte(s, 0)) {
        return end;
    }
    n
}

// No pattern: the romanization is its own base and takes a vowel.
fn unmatched(n: usize) -> Forms
    ensures { result ≡ unmatched n }
{
    Forms {
        rom: n,
        from: 0,
        to: n,
        end: n,
        add: true,
    }
}

// The forms of a romanization, whatever the script's vowel; `ao` is its type, `one` whether the span is one character.
pub fn bases(s: &[u8], ao: bool, one: bool) -> Forms
    ensures { Within (length s.now) result
        × ((vowel : Text) → shown s.now vowel result ≡ bases ao vowel s.now one) }
{
    let n = s.len();
    let end = stem(s);
    if end == 0 {
        return unmatched(n);
    }
    let at = end - 1;
    let v = base::byte(s, at);
    if is_inherent(ao, v) {
        let to = run_from(s, end, |c| v == c);
        let from = base_with_y_from(s, to);
        if from < to {
            return Forms {
                rom: n,
                from,
                to,
                end,
                add: false,
            };
        }
        let from = run_from(s, at, |c| rom::is_in(rom::CONSONANTS, c));
        if from < at {
            return Forms {
                rom: kept(s, one, end),
                from,
                to: at,
                end,
                add: false,
            };
        }
    }
    unmatched(n)
}

// Is a part not empty, and consonants only?
pub fn consonant_only(s: &[u8], from: usize, to: usize) -> bool
    requires { (from ≤ to) × (to ≤ length s.now) }
    ensures { result ≡ consonant_only (slice from to s.now) }
{
    from < to && rom::all_in(&s[from..to], rom::CONSONANTS)
}

// Does a vowel stand among the first `n` bytes?
pub fn any_vowel(s: &[u8], n: usize) -> bool
    requires { n ≤ length s.now }
    ensures { result ≡ any vowels (take n s.now) }
{
    rom::any_in(&s[..n], rom::VOWELS)
}

// Is a part b, c, d, z or ng, which stay bare before the Khmer yo?
#[tactic(auto, using(lent_bytes::specs::Library::same_texts, std::proofs::lemmas::Slice::between_is), unfolding(definition::specs::Vowels::before_yo, base::specs::Lists::any))]
pub fn stays_before_yo(s: &[u8], from: usize, to: usize) -> bool
    requires { (from ≤ to) × (to ≤ length s.now) }
    ensures { result ≡ before_yo (slice from to s.now) }
{
    let part = &s[from..to];
    part == b"b".as_slice()
        || part == b"c".as_slice()
        || part == b"d".as_slice()
        || part == b"z".as_slice()
        || part == b"ng".as_slice()
}

// The first `n` bytes of an array, put into the form that was chosen; their new number is told.
pub fn shape(bytes: &mut [u8], n: usize, f: Forms, w: Which, vowel: &[u8]) -> usize
    requires { Clean (held bytes.old n) × Within n f × (n + length vowel.now ≤ most_bytes) }
    ensures { held bytes.new result ≡ rom (form_means w (shown (take n bytes.old) vowel.now f)) }
{
    match w {
        Which::Rom => rom::keep(bytes, n, 0, f.rom),
        Which::Base => rom::keep(bytes, n, f.from, f.to),
        Which::Plus => {
            let plus = rom::keep(bytes, n, f.from, f.end);
            if f.add {
                rom::put_behind(bytes, plus, vowel)
            } else {
                plus
            }
        }
    }
}
