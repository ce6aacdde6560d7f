// The path and all edges in order (paths.rs), written one behind the other where they fit, or counted. The edges of a
// start are looked for only where they may stand (crate standing): in its stretch of the slots, and as its fallback.
#![tactic(auto)]

ghost use Rattle.std.specs.Prelude.{◌≡◌, true, List, [], ◌∷◌, ℕ, ◌+◌, ◌-◌, ◌*◌, ◌≤◌, ◌<◌, length, drop};
ghost use Rattle.definition.specs.Limits.{most_characters, most_edges, slot_bytes};
ghost use Rattle.definition.specs.Paths.{next, path_from, longer, sorted};
ghost use Rattle.edge.specs.Slots.{two_bytes, edge_of, edges_of};
ghost use Rattle.edge.specs.Stored.{Slot};
ghost use Rattle.edge.specs.Asked.{Readable};
ghost use Rattle.edge.specs.Best.{best_means, Found};
ghost use Rattle.listing.specs.Sizes.{row_most, rows_most, ends_most, start_most, path_most, starts_most, countable, Countable};
ghost use Rattle.listing.specs.Items.{put_items, Puts};
ghost use Rattle.standing.specs.Starts.{end_of};
ghost use Rattle.paths.specs.Laid.{Laid};
ghost use Rattle.paths.specs.Steps.{best_list};
ghost use Rattle.paths.specs.Orders.{farther, last_end, over};

// The row or the text of the edge that was found, if any.
fn put_best(
    out: &mut [u8],
    at: usize,
    slots: &[u8],
    room: &[u8],
    count: usize,
    best: Option<usize>,
    rows: bool,
) -> usize
    requires { Readable slots.now room.now count × Found count best × Countable at row_most }
    ensures { Puts rows (best_list room.now slots.now best) row_most (at, out.old) (result, out.new) }
{
    match best {
        Some(slot) => listing::put_item(out, at, slots, room, slot, rows),
        None => at,
    }
}

// Where the path goes on: at the edge's end, a number of two bytes, or one character on where there is none.
pub fn next_from(slots: &[u8], best: Option<usize>, p: usize) -> usize
    requires { p < countable }
    ensures { ((room : List ℕ) → result ≡ next (best_means room slots.now best) p) × (result ≤ p + two_bytes) }
{
    match best {
        Some(slot) => base::two(slots, slot, edge::TO) as usize,
        None => p + 1,
    }
}

// `best_rom_edge_path`: the longest edge at each position, of its span the first added. Each goes forward, within the text.
pub fn put_path(
    out: &mut [u8],
    at: usize,
    slots: &[u8],
    room: &[u8],
    starts: &[u32],
    count: usize,
    rows: bool,
) -> usize
    requires { Laid slots.now room.now starts.now count × Countable at path_most }
    ensures { Puts rows (path_from (end_of starts.now) 0 (edges_of room.now count slots.now))
        (end_of starts.now * row_most) (at, out.old) (result, out.new) }
{
    let n = starts.len() - 1;
    let mut end = at;
    let mut p: usize = 0;
    // the path moves on by each edge's own length
    while p < n {
        let best = standing::best_right_neighbor_edge(slots, starts, p);
        end = put_best(out, end, slots, room, count, best, rows);
        p = next_from(slots, best, p);
    }
    end
}

// Does the edge in a slot start at `p`, end before `bound`, and after `best`?
fn is_farther(slots: &[u8], slot: usize, p: usize, bound: usize, best: usize) -> bool
    ensures { (room : List ℕ) → result ≡ farther p bound best (edge_of room (drop slot slots.now)) }
{
    if base::two(slots, slot, edge::FROM) as usize != p {
        return false;
    }
    let end = base::two(slots, slot, edge::TO) as usize;
    end < bound && best < end
}

// The last end before `bound` of an edge from `p`; `p` where there is none.
fn last_end(slots: &[u8], count: usize, p: usize, bound: usize) -> usize
    requires { count * slot_bytes ≤ length slots.now }
    ensures { (room : List ℕ) → result ≡ last_end p bound p (edges_of room count slots.now) }
{
    let mut best = p;
    for number in 0..count {
        let slot = number * edge::SLOT_BYTES;
        if is_farther(slots, slot, p, bound, best) {
            best = base::two(slots, slot, edge::TO) as usize;
        }
    }
    best
}

// The edge in a slot, where it goes from `p` to `e`.
fn put_over(
    out: &mut [u8],
    at: usize,
    slots: &[u8],
    room: &[u8],
    slot: usize,
    p: usize,
    e: usize,
) -> usize
    requires { Slot room.now (length room.now) (drop slot slots.now) × Countable at row_most }
    ensures { Puts true (over (edge_of room.now (drop slot slots.now) ∷ []) p e) row_most
        (at, out.old) (result, out.new) }
{
    if base::two(slots, slot, edge::FROM) as usize != p {
        return at;
    }
    if base::two(slots, slot, edge::TO) as usize != e {
        return at;
    }
    listing::put_item(out, at, slots, room, slot, true)
}

// The edges from `p` to `e`, as added.
fn put_span(
    out: &mut [u8],
    at: usize,
    slots: &[u8],
    room: &[u8],
    count: usize,
    p: usize,
    e: usize,
) -> usize
    requires { Readable slots.now room.now count × (count ≤ most_edges * most_characters) × Countable at rows_most }
    ensures { Puts true (over (edges_of room.now count slots.now) p e) (count * row_most)
        (at, out.old) (result, out.new) }
{
    let mut end = at;
    for number in 0..count {
        end = put_over(out, end, slots, room, number * edge::SLOT_BYTES, p, e);
    }
    end
}

// The edges from `p`, longer first, then as added.
fn put_longer(
    out: &mut [u8],
    at: usize,
    slots: &[u8],
    room: &[u8],
    count: usize,
    n: usize,
    p: usize,
) -> usize
    requires { Readable slots.now room.now count × (count ≤ most_edges * most_characters) × (n ≤ most_characters) × (p < n)
        × Countable at ends_most }
    ensures { Puts true (longer (edges_of room.now count slots.now) p (n - p)) ends_most
        (at, out.old) (result, out.new) }
{
    let mut end = at;
    let mut e = last_end(slots, count, p, n + 1);
    // the ends move on by what edges have, from the farthest
    while p < e {
        end = put_span(out, end, slots, room, count, p, e);
        e = last_end(slots, count, p, e);
    }
    end
}

// The slots of a stretch, which stand one behind the other.
fn slots_from(slots: &[u8], first: usize) -> &[u8]
    requires { first * slot_bytes ≤ length slots.now }
    ensures { result.now ≡ drop (first * slot_bytes) slots.now }
{
    let at = first * edge::SLOT_BYTES;
    &slots[at..]
}

// The edges from `p`: of its stretch, longer first, then as added; and its fallback, which is the shortest and added
// last.
fn put_start(
    out: &mut [u8],
    at: usize,
    slots: &[u8],
    room: &[u8],
    starts: &[u32],
    count: usize,
    p: usize,
) -> usize
    requires { Laid slots.now room.now starts.now count × (count ≤ most_edges * most_characters) × (p + 1 < length starts.now)
        × Countable at start_most }
    ensures { Puts true (longer (edges_of room.now count slots.now) p (end_of starts.now - p)) start_most
        (at, out.old) (result, out.new) }
{
    let n = starts.len() - 1;
    let within = standing::stretch_at(starts, p);
    let first = within.first;
    let near = slots_from(slots, first);
    let end = put_longer(out, at, near, room, within.end - first, n, p);
    let single = standing::fallback(starts, p);
    put_best(out, end, slots, room, count, single, true)
}

// `all_edges`: by start, longer first, then as added.
pub fn put_all_edges(
    out: &mut [u8],
    at: usize,
    slots: &[u8],
    room: &[u8],
    starts: &[u32],
    count: usize,
) -> usize
    requires { Laid slots.now room.now starts.now count × (count ≤ most_edges * most_characters) × Countable at starts_most }
    ensures { (result, out.new)
        ≡ put_items true (sorted (edges_of room.now count slots.now) (end_of starts.now) 0) (at, out.old) }
{
    let n = starts.len() - 1;
    let mut end = at;
    for p in 0..n {
        end = put_start(out, end, slots, room, starts, count, p);
    }
    end
}
