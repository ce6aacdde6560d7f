// What rules offer as alternatives of an edge (paths.rs, `add_alternatives`), and whether a text was offered before.
// Nothing is kept of what was found: whether an alternative is new is asked again of the rows before it.
#![tactic(auto)]

ghost use Rattle.std.specs.Prelude.{Bool, true, ◌&&◌, ◌++◌, ◌≡◌, ◌≤◌, ◌<◌, length, take, drop};
ghost use Rattle.base.specs.Lists.{any, has, is, same};
ghost use Rattle.definition.specs.Limits.{most_alternative};
ghost use Rattle.definition.specs.RuleRows.{rule_of};
ghost use Rattle.definition.specs.Utf8.{decoded};
ghost use Rattle.definition.specs.Rules.{holds_at};
ghost use Rattle.definition.specs.Paths.{cored};
ghost use Rattle.definition.specs.Offers.{offers, all_offers};
ghost use Rattle.utf8.specs.Encodings.{TextBytes};
ghost use Rattle.lent_bytes.specs.Puts.{put_at};
ghost use Rattle.edge.specs.Slots.{edge_by};
ghost use Rattle.words.specs.Found.{Row, Rows};
ghost use Rattle.offers.specs.Texts.{texts, offer_at, Spoken, Tells, TellsEither, most_others, most_offers, count_of, Numbered, note_of, offering, holding};
ghost use Rattle.offers.specs.Parts.{Has, text_in, vowel_behind};

use edge::Numbers;

// A row offers this many texts at most: its alternatives, whose number is a byte, and both targets.
const MOST_OFFERS: usize = 257;

// Bytes of an offered text, at most.
pub const MOST_OFFER: usize = 204;

// What was asked of an edge's span: is it at a start of word, at an end of word, and which row of the rule table is its
// first? And are end-of-syllable readings chosen?
#[derive(Clone, Copy)]
pub struct Asked {
    pub start: bool,
    pub end: bool,
    pub first: usize,
    pub readings: bool,
}

// What a row offers for an edge: how many of its alternatives, with the edge's vowel behind them or not; its end-of-syllable
// target, as a reading, where its target was taken; and its target where its end-of-syllable target was.
#[derive(Clone, Copy)]
pub struct Offers {
    pub others: usize,
    pub cored: bool,
    pub reading: bool,
    pub target: bool,
}

// One of the texts that a row offers: an alternative, by its number; its end-of-syllable target; or its target.
#[derive(Clone, Copy)]
pub enum Offer {
    Alternative(usize),
    EndTarget,
    Target,
}

impl Offers {
    // How many texts a row offers.
    #[tactic(auto, unfolding(crate::specs::Texts::count_of, base::specs::Pick::pick))]
    pub fn count(self) -> usize
        requires { self.others ≤ most_others }
        ensures { result ≡ count_of self }
    {
        self.others + (usize::from(self.reading) + usize::from(self.target))
    }

    // Text number `k` of them: the end-of-syllable target comes after the alternatives, and the target last.
    pub fn offer(self, k: usize) -> Offer
        ensures { Numbered self k result }
    {
        if k < self.others {
            Offer::Alternative(k)
        } else if self.reading && k == self.others {
            Offer::EndTarget
        } else {
            Offer::Target
        }
    }
}

impl Offer {
    // The annotation of an edge with this text.
    pub fn note(self) -> u8
        ensures { result ≡ note_of self }
    {
        match self {
            Offer::Alternative(_) => edge::ALT,
            Offer::EndTarget => edge::ALT2,
            Offer::Target => edge::ALT3,
        }
    }
}

// May a row offer anything: has it an end-of-syllable target, or alternatives? Most have neither, and are not looked into.
#[tactic(auto, using(crate::proofs::Telling::end_has, crate::proofs::Telling::others_are), unfolding(crate::specs::Texts::offering))]
pub fn may_offer(rules: &[u8], row: usize) -> bool
    ensures { result ≡ offering (rule_of (drop row rules.now)) }
{
    rule_row::flag(rules, row, rule_row::END_TARGET_BIT) || 0 < rule_row::others_count(rules, row)
}

// Is a target the core of an edge?
#[tactic(auto, using(lent_bytes::specs::Library::same_texts, crate::proofs::Telling::core_none, crate::proofs::Telling::core_same))]
fn is_core(e: Numbers, text: &[u8], w: &[u8]) -> bool
    requires { Spoken e text.now }
    ensures { result ≡ cored (edge_by e text.now) w.now }
{
    e.note == edge::CORE && w == &text[..e.core as usize]
}

// Is the row's end-of-syllable target the edge's text?
#[tactic(auto, using(lent_bytes::specs::Library::same_texts, crate::proofs::Telling::end_is))]
fn is_at_end(rules: &[u8], row: usize, text: &[u8]) -> bool
    requires { Row (drop row rules.now) × TextBytes text.now }
    ensures { result ≡ is (λ u. same u (decoded text.now)) (rule_of (drop row rules.now)).end_target }
{
    rule_row::flag(rules, row, rule_row::END_TARGET_BIT)
        && rule_row::end_target_text(rules, row) == text
}

// Are readings chosen, and has the row an end-of-syllable target?
#[tactic(auto, using(crate::proofs::Telling::end_has))]
fn is_read(rules: &[u8], row: usize, readings: bool) -> bool
    ensures { result ≡ (readings && has (rule_of (drop row rules.now)).end_target) }
{
    readings && rule_row::flag(rules, row, rule_row::END_TARGET_BIT)
}

// What a row offers: its alternatives where its target is the edge's text, or its core; its end-of-syllable target only where
// the target is the text.
pub fn offers_of(rules: &[u8], row: usize, readings: bool, e: Numbers, text: &[u8]) -> Offers
    requires { Row (drop row rules.now) × Spoken e text.now }
    ensures { Tells readings (edge_by e text.now) (rule_of (drop row rules.now)) result × (result.others ≤ most_others) }
{
    if !rule_row::flag(rules, row, rule_row::TARGET_BIT) {
        return Offers {
            others: 0,
            cored: false,
            reading: false,
            target: false,
        };
    }
    let w = rule_row::target_text(rules, row);
    let whole = w == text;
    let cored = is_core(e, text, w);
    let taken = whole || cored;
    let others = if taken {
        rule_row::others_count(rules, row)
    } else {
        0
    };
    let reading = whole && is_read(rules, row, readings);
    let target = is_at_end(rules, row, text);
    Offers {
        others,
        cored,
        reading,
        target,
    }
}

// The text of an offer as it stands in the row.
fn text_in<'a>(rules: &'a [u8], row: usize, offer: Offer) -> &'a [u8]
    requires { Has (drop row rules.now) offer }
    ensures { result.now ≡ text_in (drop row rules.now) offer }
{
    match offer {
        Offer::Alternative(k) => rule_row::other_text(rules, row, k),
        Offer::EndTarget => rule_row::end_target_text(rules, row),
        Offer::Target => rule_row::target_text(rules, row),
    }
}

// What the edge adds behind it: its vowel behind an alternative, where the row's target is its core.
#[tactic(auto, using(crate::proofs::Telling::nothing_behind), unfolding(base::specs::Pick::pick))]
fn vowel_behind<'a>(o: Offers, offer: Offer, e: Numbers, text: &'a [u8]) -> &'a [u8]
    requires { o.cored ≡ true → e.core ≤ length text.now }
    ensures { result.now ≡ vowel_behind o offer e.core text.now }
{
    match offer {
        Offer::Alternative(_) if o.cored => &text[e.core as usize..],
        _ => &[],
    }
}

// Puts text number `k` of what a row offers to the front, and tells its length.
#[tactic(auto, using(crate::proofs::Telling::has_it, crate::proofs::Telling::core_inside, crate::proofs::Telling::parts_fit))]
pub fn put_offer(
    bytes: &mut [u8],
    rules: &[u8],
    row: usize,
    o: Offers,
    e: Numbers,
    text: &[u8],
    k: usize,
) -> usize
    requires { (most_alternative ≤ length bytes.old) × Row (drop row rules.now) × Spoken e text.now
        × TellsEither (edge_by e text.now) (rule_of (drop row rules.now)) o × (k < count_of o) }
    ensures { (b : Bool) → Tells b (edge_by e text.now) (rule_of (drop row rules.now)) o
        → (bytes.new ≡ put_at 0 (offer_at b (edge_by e text.now) (rule_of (drop row rules.now)) k) bytes.old)
        × (result ≡ length (offer_at b (edge_by e text.now) (rule_of (drop row rules.now)) k)) × (result ≤ most_alternative) }
{
    let offer = o.offer(k);
    let w = text_in(rules, row, offer);
    let vowel = vowel_behind(o, offer, e, text);
    let len = w.len();
    lent_bytes::put_at(bytes, 0, w);
    lent_bytes::put_at(bytes, len, vowel);
    len + vowel.len()
}

// Is a text another with a third behind it?
fn is_joined(w: &[u8], u: &[u8], v: &[u8]) -> bool
    ensures { result ≡ same w.now (u.now ++ v.now) }
{
    let n = u.len();
    if w.len() < n {
        return false;
    }
    &w[n..] == v && &w[..n] == u
}

// Is a text number `k` of what a row offers? It is compared where it stands.
#[tactic(auto, using(crate::proofs::Telling::has_it, crate::proofs::Telling::core_inside, crate::proofs::Telling::parts_are))]
fn is_offer(
    rules: &[u8],
    row: usize,
    o: Offers,
    e: Numbers,
    text: &[u8],
    k: usize,
    w: &[u8],
) -> bool
    requires { Row (drop row rules.now) × Spoken e text.now
        × TellsEither (edge_by e text.now) (rule_of (drop row rules.now)) o × (k < count_of o) }
    ensures { (b : Bool) → Tells b (edge_by e text.now) (rule_of (drop row rules.now)) o
        → result ≡ same w.now (offer_at b (edge_by e text.now) (rule_of (drop row rules.now)) k) }
{
    let offer = o.offer(k);
    let u = text_in(rules, row, offer);
    let vowel = vowel_behind(o, offer, e, text);
    is_joined(w, u, vowel)
}

// Is a text among the first `most` that a row offers?
pub fn row_offers(
    rules: &[u8],
    row: usize,
    readings: bool,
    e: Numbers,
    text: &[u8],
    most: usize,
    w: &[u8],
) -> bool
    requires { Row (drop row rules.now) × Spoken e text.now }
    ensures { (result ≡ any (same w.now) (take most (texts (offers readings (edge_by e text.now) (rule_of (drop row rules.now))))))
        × (length (texts (offers readings (edge_by e text.now) (rule_of (drop row rules.now)))) ≤ most_offers) }
{
    let o = offers_of(rules, row, readings, e, text);
    for k in 0..o.count().min(most) {
        if is_offer(rules, row, o, e, text, k, w) {
            return true;
        }
    }
    false
}

// Does a row offer a text, and does its rule hold?
fn holding_row_offers(
    rules: &[u8],
    code: &[u8],
    asked: Asked,
    row: usize,
    e: Numbers,
    text: &[u8],
    w: &[u8],
) -> bool
    requires { Row (drop row rules.now) × Spoken e text.now }
    ensures { result ≡ (holds_at code.now asked.start asked.end (rule_of (drop row rules.now))
        && any (same w.now) (texts (offers asked.readings (edge_by e text.now) (rule_of (drop row rules.now))))) }
{
    rule_choice::holds(rules, code, row, asked.start, asked.end)
        && row_offers(rules, row, asked.readings, e, text, MOST_OFFERS, w)
}

// Is a text among all that some rows offer whose rules hold?
pub fn rows_offer(
    rules: &[u8],
    code: &[u8],
    asked: Asked,
    rows: usize,
    e: Numbers,
    text: &[u8],
    w: &[u8],
) -> bool
    requires { Rows rules.now asked.first rows × Spoken e text.now }
    ensures { result ≡ any (same w.now) (texts (all_offers asked.readings (edge_by e text.now)
        (holding code.now asked.start asked.end rules.now asked.first rows))) }
{
    let mut row = asked.first;
    for _ in 0..rows {
        if holding_row_offers(rules, code, asked, row, e, text, w) {
            return true;
        }
        row += rule_row::size(rules, row);
    }
    false
}
