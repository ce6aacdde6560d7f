// Edges by their start. The first pass adds at each start edges that start there or up to two characters before; the
// second adds a fallback for each character that is not covered, behind all others. So `starts` keeps for each start
// how many edges there were when the search began there, and which fallback it got; and in its last entry, that of the
// text's end, how many edges the first pass has made. Then the edges of a start stand in a short stretch of the slots,
// and its fallback is known.
#![tactic(auto)]

ghost use Rattle.std.specs.Prelude.{◌≡◌, List, ℕ, ◌+◌, ◌-◌, ◌*◌, ◌≤◌, ◌<◌, length, get_or, drop, set};
ghost use Rattle.base.specs.Lists.{best};
ghost use Rattle.definition.specs.Limits.{slot_bytes};
ghost use Rattle.definition.specs.Edges.{starting};
ghost use Rattle.edge.specs.Slots.{edge_of, edges_of};
ghost use Rattle.edge.specs.Best.{best_means, Found};
ghost use Rattle.standing.specs.Starts.{begun_limit, fall_limit, begun, fall_of, since_in, stretch_of, fallback_of, fell};
ghost use Rattle.standing.specs.Stands.{Stands, Arranged};
ghost use Rattle.standing.specs.Right.{longer, improved, RightBest};

// An entry's number of edges stays below this, and what it tells of a fallback stands above.
const BEGUN: u32 = 131072;

// Some edges by number, from `first` to before `end`.
#[derive(Clone, Copy)]
pub struct Stretch {
    pub first: usize,
    pub end: usize,
}

// The search begins at `s`: so many edges are there.
pub fn begin_at(starts: &mut [u32], s: usize, count: usize)
    requires { (s < length starts.old) × (count < begun_limit) }
    ensures { starts.new ≡ set starts.old s count }
{
    starts[s] = count as u32;
}

// The fallback of `p` is number `k` of the fallbacks.
pub fn fall_at(starts: &mut [u32], p: usize, k: usize)
    requires { (p < length starts.old) × (k < fall_limit) }
    ensures { starts.new ≡ fell p k starts.old }
{
    starts[p] = starts[p] % BEGUN + (k as u32 + 1) * BEGUN;
}

// How many edges there were when the search began at `p`.
fn begun_at(starts: &[u32], p: usize) -> usize
    requires { p < length starts.now }
    ensures { (result ≡ begun starts.now p) × (result < begun_limit) }
{
    (starts[p] % BEGUN) as usize
}

// The entry of `p`.
fn entry(starts: &[u32], p: usize) -> u32
    requires { p < length starts.now }
    ensures { result ≡ get_or starts.now p 0 }
{
    starts[p]
}

// 0, or one more than the number of the fallback that `p` got.
fn fallen_at(starts: &[u32], p: usize) -> usize
    requires { p < length starts.now }
    ensures { (result ≡ fall_of starts.now p) × (result ≤ fall_limit) }
{
    (entry(starts, p) / BEGUN) as usize
}

// How many of the first edges all start before those that the search at `s` finds.
pub fn since(starts: &[u32], s: usize) -> usize
    requires { s < length starts.now }
    ensures { result ≡ since_in starts.now s }
{
    if s < 2 {
        return begun_at(starts, 0);
    }
    begun_at(starts, s - 2)
}

// Where the edges of the first pass stand that start at `p`: they came while the search stood at `p` or at one of the
// next two starts.
pub fn stretch_at(starts: &[u32], p: usize) -> Stretch
    requires { p + 1 < length starts.now }
    ensures { result ≡ stretch_of starts.now p }
{
    let n = starts.len() - 1;
    let first = begun_at(starts, p);
    if n < p + 3 {
        return Stretch {
            first,
            end: begun_at(starts, n),
        };
    }
    Stretch {
        first,
        end: begun_at(starts, p + 3),
    }
}

// The slot of the fallback of `p`, where it got one: fallbacks stand behind all edges of the first pass.
pub fn fallback(starts: &[u32], p: usize) -> Option<usize>
    requires { p + 1 < length starts.now }
    ensures { result ≡ fallback_of starts.now p }
{
    let k = fallen_at(starts, p);
    if k == 0 {
        return None;
    }
    let n = starts.len() - 1;
    let made = begun_at(starts, n);
    Some((made + (k - 1)) * edge::SLOT_BYTES)
}

// Does the edge in a slot end farther on than another?
fn is_longer(slots: &[u8], slot: usize, other: usize) -> bool
    ensures { (room : List ℕ) → result ≡ longer (edge_of room (drop slot slots.now)) (edge_of room (drop other slots.now)) }
{
    base::two(slots, other, edge::TO) < base::two(slots, slot, edge::TO)
}

// The edge in a slot, where it starts at `p` and is longer than the best one so far, and else that one.
fn better(slots: &[u8], slot: usize, p: usize, best: Option<usize>) -> Option<usize>
    ensures { (room : List ℕ) → result ≡ improved p room slots.now slot best }
{
    if base::two(slots, slot, edge::FROM) as usize != p {
        return best;
    }
    match best {
        None => Some(slot),
        Some(other) if is_longer(slots, slot, other) => Some(slot),
        Some(_) => best,
    }
}

// Of the edges of a stretch that start at `p` the first added of the longest.
fn best_within(slots: &[u8], within: Stretch, p: usize) -> Option<usize>
    requires { within.end * slot_bytes ≤ length slots.now }
    ensures { ((room : List ℕ) → best_means room slots.now result
        ≡ best longer (starting (edges_of room (within.end - within.first) (drop (within.first * slot_bytes) slots.now)) p))
        × Found within.end result }
{
    let mut best = None;
    for number in within.first..within.end {
        best = better(slots, number * edge::SLOT_BYTES, p, best);
    }
    best
}

// The best edge that starts at `p`: the longest, and of these the first added. A fallback goes over one character, so
// that none is shorter: it is taken where there is no other.
pub fn best_right_neighbor_edge(slots: &[u8], starts: &[u32], p: usize) -> Option<usize>
    requires { Arranged slots.now starts.now × (p + 1 < length starts.now) }
    ensures { (count : ℕ) → Stands slots.now starts.now count → RightBest slots.now count p result }
{
    best_within(slots, stretch_at(starts, p), p).or(fallback(starts, p))
}
