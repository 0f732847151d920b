// A tree grown from the root along admissible arcs, each fixed as it is taken. Where no cut is looked at it comes to
// every vertex that such arcs lead to, so a vertex that it misses is in no tree. Where cuts are looked at it enters
// none of them twice, as a cheapest tree does; that it is one is not promised, and its total has to be compared.
ghost use Rattle.std.specs.Prelude.{◌≡◌, suc, ◌≤◌, ◌<◌, length};
ghost use Rattle.base.specs.Bounded.{all_below};
ghost use Rattle.instance.specs.Limits.{max_vertices, max_cuts};
ghost use Rattle.instance.specs.Cuts.{inside};
ghost use Rattle.first_tree.specs.Growth.{InRange, Grows, GrownTree};

use super::Cheapest;
use super::fixing::fix_arc;
use checks::sets::is_inside;
use instance::limits::{NO_PARENT, VERTICES};

// The vertices that are reached, as a set, and the parents of those.
#[derive(Clone, Copy)]
pub struct Growth {
    pub reached: u32,
    pub parents: [u8; VERTICES],
}

// Looks at one vertex: where it is not reached and an arc leads to it from one that is, it is reached now.
fn grow_into(
    search: Cheapest, // what the search goes by
    reached: u32, // the vertices that are reached
    head: u32, // the vertex
    tails: &mut [u32; VERTICES], // the tails that each vertex can have
    parents: &mut [u8; VERTICES], // the parents of the vertices that are reached
) -> u32
    requires { InRange search.n search.from.0 search.count tails.now reached parents.now × (head < search.n) }
    ensures { Grows search.entry.n search.entry.from.0 search.entry.count head (suc head) tails.entry.now tails.exit.now reached result parents.entry.now parents.exit.now }
{
    if is_inside(reached, head) {
        return reached;
    }
    let sources = tails[head as usize] & reached;
    if sources == 0 {
        return reached;
    }
    let tail = u32::trailing_zeros(sources);
    fix_arc(search, tail, head, tails);
    parents[head as usize] = tail as u8;
    reached | (1u32 << head)
}

// Looks at every vertex once, the highest first: in a first tree a vertex is often fed from a higher one, so that going
// upwards would take a round for each such step.
fn grow_round(
    search: Cheapest,
    reached: u32,
    tails: &mut [u32; VERTICES],
    parents: &mut [u8; VERTICES],
) -> u32
    requires { InRange search.n search.from.0 search.count tails.old reached parents.old }
    ensures { Grows search.entry.n search.entry.from.0 search.entry.count 0 search.entry.n tails.old tails.new reached result parents.old parents.new }
{
    let mut more = reached;
    for head in (0..search.n).rev() {
        more = grow_into(search, more, head, tails, parents);
    }
    more
}

// Grows a tree until a round adds nothing, from the tails that each vertex can have.
pub fn grow(search: Cheapest, tails: &[u32; VERTICES]) -> Growth
    requires { (search.n ≤ max_vertices) × (search.root < search.n) × (search.from.0 ≤ search.count) × (search.count ≤ max_cuts) }
    ensures { GrownTree search.entry.n search.entry.root search.entry.from.0 search.entry.count tails.entry.now result.reached result.parents }
{
    let mut left = *tails;
    let mut parents = [NO_PARENT; VERTICES];
    let mut reached = 1u32 << search.root;
    let mut last: u32 = 0;
    while last != reached {
        last = reached;
        reached = grow_round(search, reached, &mut left, &mut parents);
    }
    Growth { reached, parents }
}

// Whether every vertex is reached.
pub fn all_reached(reached: u32, n: u32) -> bool
    requires { n ≤ max_vertices }
    ensures { result ≡ all_below n (inside reached) }
{
    for v in (0..n).rev() {
        if !is_inside(reached, v) {
            return false;
        }
    }
    true
}
