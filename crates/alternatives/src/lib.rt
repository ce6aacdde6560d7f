// Alternatives (paths.rs, `add_alternatives`), written one behind the other where they fit, or counted: what the rules of
// each edge of the path offer, where its text is new. They take no slot. Text room that is free keeps a filter of what
// was offered, so that most texts are known as new without asking the rows before again.
#![tactic(auto)]

ghost use Rattle.std.specs.Prelude.{not, true, [], ◌∷◌, ◌++◌, ◌≡◌, ◌+◌, ◌≤◌, ◌<◌, take, drop};
ghost use Rattle.base.specs.Lists.{put, any, same};
ghost use Rattle.base.specs.Alls.{All};
ghost use Rattle.definition.specs.Limits.{most_rows, most_alternative};
ghost use Rattle.definition.specs.Shorts.{Low, Short};
ghost use Rattle.definition.specs.RuleRows.{rule_of};
ghost use Rattle.definition.specs.Paths.{other, join};
ghost use Rattle.definition.specs.Offers.{offers, found_by};
ghost use Rattle.edge.specs.Slots.{edge_by, edges_of};
ghost use Rattle.edge.specs.Best.{best_means};
ghost use Rattle.listing.specs.Sizes.{Countable};
ghost use Rattle.listing.specs.Items.{Puts};
ghost use Rattle.words.specs.Found.{Row, Rows};
ghost use Rattle.words.specs.Given.{size_in};
ghost use Rattle.marks.specs.Marked.{Marked};
ghost use Rattle.offers.specs.Texts.{Spoken, holding};
ghost use Rattle.alternatives.specs.News.{offered, earlier, row_offered, holding_offers, Blank, offer_bytes, edge_bytes};
ghost use Rattle.alternatives.specs.Written.{Offering, Offered, EdgeReady, PathReady, Alternatives, PathAlternatives};

use edge::Numbers;
use offers::Asked;
use words::{Dicts, Span};

// An edge with fewer rows than this is offered so little that no filter is kept.
const FEW_ROWS: usize = 8;

// The filter's cells for each row.
const ROW_CELLS: usize = 256;

// Where a listing stands, and how many edges there are and how much text room they take.
#[derive(Clone, Copy)]
pub struct Listed {
    pub at: usize,
    pub count: usize,
    pub used: usize,
}

// Was a text offered that is number `k` of what a row offers: by the rows before, or by this one?
#[tactic(auto, using(base::specs::ListLaws::any_append))]
fn is_offered(
    dicts: &Dicts,
    asked: Asked,
    before: usize,
    row: usize,
    e: Numbers,
    text: &[u8],
    k: usize,
    w: &[u8],
) -> bool
    requires { Rows dicts.now.rules.now asked.first before × Row (drop row dicts.now.rules.now) × Spoken e text.now }
    ensures { result ≡ any (same w.now) (offered (edge_by e text.now) dicts.now.code.now asked dicts.now.rules.now before
        ++ row_offered (edge_by e text.now) asked dicts.now.rules.now row k) }
{
    offers::rows_offer(dicts.rules, dicts.code, asked, before, e, text, w)
        || offers::row_offers(dicts.rules, row, asked.readings, e, text, k, w)
}

// Is a text that a row offers new: not the edge's own, and not offered before? What the filter surely doesn't hold was not offered.
#[tactic(auto, using(lent_bytes::specs::Library::same_texts, crate::proofs::Turns::own_again))]
fn is_new(
    dicts: &Dicts,
    asked: Asked,
    before: usize,
    row: usize,
    e: Numbers,
    text: &[u8],
    cells: &[u8],
    k: usize,
    w: &[u8],
) -> bool
    requires { Rows dicts.now.rules.now asked.first before × Row (drop row dicts.now.rules.now) × Spoken e text.now × All Low w.now
        × Marked (offered (edge_by e text.now) dicts.now.code.now asked dicts.now.rules.now before ++ row_offered (edge_by e text.now) asked dicts.now.rules.now row k) cells.now }
    ensures { result ≡ not (any (same w.now) (earlier (edge_by e text.now) dicts.now.code.now asked dicts.now.rules.now before
        ++ row_offered (edge_by e text.now) asked dicts.now.rules.now row k)) }
{
    if w == text {
        return false;
    }
    !(marks::may_hold(cells, w) && is_offered(dicts, asked, before, row, e, text, k, w))
}

// The row of an alternative, which has its edge's span, where it is new.
#[tactic(auto, using(utf8::specs::Encodings::low_bytes, crate::proofs::Turns::put_not))]
fn put_new(out: &mut [u8], at: usize, new: bool, e: Numbers, note: u8, w: &[u8]) -> usize
    requires { Countable at offer_bytes × Short most_alternative w.now }
    ensures { Puts true (put new (other (edge_by e []) note w.now) []) offer_bytes (at, out.old) (result, out.new) }
{
    if !new {
        return at;
    }
    let other = Numbers {
        from: e.from,
        to: e.to,
        note,
        core: 0,
    };
    listing::put_other(out, at, other, w)
}

// What a row offers that is new; all of it is marked.
fn put_offers(
    out: &mut [u8],
    at: usize,
    dicts: &Dicts,
    asked: Asked,
    before: usize,
    row: usize,
    e: Numbers,
    text: &[u8],
    cells: &mut [u8],
) -> usize
    requires { Offering dicts.now.rules.now dicts.now.code.now asked before row e text.now at cells.old }
    ensures { Offered dicts.now.rules.now dicts.now.code.now asked before (edge_by e text.now)
        (offers asked.readings (edge_by e text.now) (rule_of (drop row dicts.now.rules.now)))
        (at, out.old) (result, out.new) cells.new }
{
    let o = offers::offers_of(dicts.rules, row, asked.readings, e, text);
    let mut bytes = [0u8; offers::MOST_OFFER];
    let mut to = at;
    for k in 0..o.count() {
        let len = offers::put_offer(&mut bytes, dicts.rules, row, o, e, text, k);
        let w = &bytes[..len];
        let new = is_new(dicts, asked, before, row, e, text, cells, k, w);
        to = put_new(out, to, new, e, o.offer(k).note(), w);
        marks::mark(cells, w);
    }
    to
}

// What a row offers that is new, where its rule holds.
fn put_holding(
    out: &mut [u8],
    at: usize,
    dicts: &Dicts,
    asked: Asked,
    before: usize,
    row: usize,
    e: Numbers,
    text: &[u8],
    cells: &mut [u8],
) -> usize
    requires { Offering dicts.now.rules.now dicts.now.code.now asked before row e text.now at cells.old }
    ensures { Offered dicts.now.rules.now dicts.now.code.now asked before (edge_by e text.now)
        (holding_offers (edge_by e text.now) dicts.now.code.now asked (rule_of (drop row dicts.now.rules.now)))
        (at, out.old) (result, out.new) cells.new }
{
    if offers::may_offer(dicts.rules, row)
        && rule_choice::holds(dicts.rules, dicts.code, row, asked.start, asked.end)
    {
        put_offers(out, at, dicts, asked, before, row, e, text, cells)
    } else {
        at
    }
}

// What some rows offer that is new, whose rules hold. The filter is empty at first: one that held an earlier edge's texts
// would answer no less truly, but seldom `false`.
fn put_rows(
    out: &mut [u8],
    at: usize,
    dicts: &Dicts,
    asked: Asked,
    rows: usize,
    e: Numbers,
    text: &[u8],
    cells: &mut [u8],
) -> usize
    requires { Rows dicts.now.rules.now asked.first rows × (rows ≤ most_rows) × Spoken e text.now × Countable at edge_bytes × Blank cells.old }
    ensures { Puts true (found_by asked.readings (edge_by e text.now)
        (holding dicts.now.code.now asked.start asked.end dicts.now.rules.now asked.first rows)) edge_bytes
        (at, out.old) (result, out.new) }
{
    let mut to = at;
    let mut row = asked.first;
    for before in 0..rows {
        to = put_holding(out, to, dicts, asked, before, row, e, text, cells);
        row += rule_row::size(dicts.rules, row);
    }
    to
}

// What some rows offer that is new, with cells of any content: they are emptied first.
fn put_filtered(
    out: &mut [u8],
    at: usize,
    dicts: &Dicts,
    asked: Asked,
    rows: usize,
    e: Numbers,
    text: &[u8],
    cells: &mut [u8],
) -> usize
    requires { Rows dicts.now.rules.now asked.first rows × (rows ≤ most_rows) × Spoken e text.now × Countable at edge_bytes }
    ensures { Puts true (found_by asked.readings (edge_by e text.now)
        (holding dicts.now.code.now asked.start asked.end dicts.now.rules.now asked.first rows)) edge_bytes
        (at, out.old) (result, out.new) }
{
    lent_bytes::clear(cells);
    put_rows(out, at, dicts, asked, rows, e, text, cells)
}

// How many of so many free bytes the filter gets.
fn filter_len(rows: usize, free: usize) -> usize
    requires { rows ≤ most_rows }
    ensures { result ≤ free }
{
    if rows < FEW_ROWS {
        0
    } else {
        free.min(rows * ROW_CELLS)
    }
}

// The alternatives of an edge, by the rules that are valid for its span.
fn put_edge_alternatives(
    out: &mut [u8],
    at: usize,
    dicts: &Dicts,
    line: &[u32],
    places: &mut [u32],
    free: &mut [u8],
    e: Numbers,
    text: &[u8],
) -> usize
    requires { Spoken e text.now × (e.from < e.to) × (e.to ≤ size_in line.now) × Countable at edge_bytes }
    ensures { Alternatives dicts.now.rules.now dicts.now.ready.now dicts.now.code.now line.now places.old places.new
        (edge_by e text.now ∷ []) (at, out.old) (result, out.new) × (result ≤ at + edge_bytes) }
{
    let choices = words::choices_in(dicts.ready);
    let start = words::is_at_start_of_word(line, places, e.from);
    let end = words::is_at_end_of_word(dicts, line, e.to);
    let span = Span {
        from: e.from,
        to: e.to,
    };
    let look = words::look_up(dicts, line, span);
    let asked = Asked {
        start,
        end,
        first: look.found.first,
        readings: choices.readings == 1,
    };
    let cells = filter_len(look.found.count, free.len());
    put_filtered(
        out,
        at,
        dicts,
        asked,
        look.found.count,
        e,
        text,
        &mut free[..cells],
    )
}

// The alternatives of the edge that the path has found, if any. Its text is copied, so that the room behind the texts can be lent.
fn put_best_alternatives(
    out: &mut [u8],
    dicts: &Dicts,
    line: &[u32],
    slots: &[u8],
    room: &mut [u8],
    places: &mut [u32],
    listed: Listed,
    best: Option<usize>,
) -> usize
    requires { EdgeReady dicts.now.rules.now dicts.now.ready.now line.now slots.now room.old listed best }
    ensures { Alternatives dicts.now.rules.now dicts.now.ready.now dicts.now.code.now line.now places.old places.new
        (join (best_means room.old slots.now best) []) (listed.at, out.old) (result, out.new) × (result ≤ listed.at + edge_bytes)
        × (take listed.used room.new ≡ take listed.used room.old) }
{
    let Some(slot) = best else {
        return listed.at;
    };
    let e = edge::numbers_at(slots, slot);
    let mut bytes = [0u8; rom::MOST_BYTES];
    let own = edge::edge_text(slots, room, slot);
    let text = &mut bytes[..own.len()];
    text.copy_from_slice(own);
    put_edge_alternatives(
        out,
        listed.at,
        dicts,
        line,
        places,
        &mut room[listed.used..],
        e,
        text,
    )
}

// The alternatives of the path, edge by edge.
pub fn put_alternatives(
    out: &mut [u8],
    dicts: &Dicts,
    line: &[u32],
    slots: &[u8],
    room: &mut [u8],
    places: &mut [u32],
    starts: &[u32],
    listed: Listed,
) -> usize
    requires { PathReady dicts.now.rules.now dicts.now.ready.now line.now slots.now room.old starts.now listed }
    ensures { PathAlternatives dicts.now.rules.now dicts.now.ready.now dicts.now.code.now line.now places.old
        (edges_of room.old listed.count slots.now) (listed.at, out.old) (result, out.new) }
{
    let n = words::text_len(line);
    let mut to = listed.at;
    let mut p: usize = 0;
    // The path moves by each edge's own length, so no range goes over it.
    while p < n {
        let best = standing::best_right_neighbor_edge(slots, starts, p);
        let here = Listed { at: to, ..listed };
        to = put_best_alternatives(out, dicts, line, slots, room, places, here, best);
        p = paths::next_from(slots, best, p);
    }
    to
}
