// An arc fixed: into its head no other arc stays admissible, and elsewhere none that enters a cut which it enters,
// since no two arcs of a cheapest arborescence do. The sets of tails then say what can stand beside it. All is right
// whichever of the cuts are looked at: with fewer of them more arcs stay admissible.
ghost use Rattle.std.specs.Prelude.{◌≡◌, true, ◌≤◌, ◌<◌, length};
ghost use Rattle.instance.specs.Limits.{max_vertices, max_cuts};
ghost use Rattle.first_tree.specs.Tails.{admissible_by};
ghost use Rattle.first_tree.specs.Fixing.{Within, FixedTails};

use super::Cheapest;
use checks::sets::{is_entering, is_inside};
use instance::CutIndex;
use instance::limits::{CUT_WORDS, VERTICES};

// The place of the first cut with more than one vertex. Planning charges the single vertices first, and nothing is let
// go for the cut of one vertex: an arc that enters it has the same head.
pub fn first_group(cuts: &[u32; CUT_WORDS], count: u32) -> CutIndex
    requires { count ≤ max_cuts }
    ensures { result.0 ≤ count }
{
    for k in 0..count {
        if 1 < u32::count_ones(cuts[(2 * k) as usize]) {
            return CutIndex(k);
        }
    }
    CutIndex(count)
}

// Into the vertices of a set no arc from outside it stays admissible.
fn keep_within(n: u32, set: u32, tails: &mut [u32; VERTICES])
    requires { n ≤ max_vertices }
    ensures { Within n set tails.old tails.new }
{
    for h in 0..n {
        if is_inside(set, h) {
            let i = h as usize;
            tails[i] = tails[i] & set;
        }
    }
}

// Fixes an admissible arc.
pub fn fix_arc(
    search: Cheapest, // what the search goes by
    tail: u32, // the arc
    head: u32, // into this vertex
    tails: &mut [u32; VERTICES], // the tails that each vertex can have
)
    requires { (search.n ≤ max_vertices) × (search.from.0 ≤ search.count) × (search.count ≤ max_cuts) × (tail < search.n) × (head < search.n) × (admissible_by tails.now tail head ≡ true) }
    ensures { FixedTails search.entry.cuts.now search.entry.n search.entry.from.0 search.entry.count tail head tails.entry.now tails.exit.now }
{
    let low = search.from.0;
    for k in (low..search.count).rev() {
        let set = search.cuts[(2 * k) as usize];
        if is_entering(set, tail, head) {
            keep_within(search.n, set, tails);
        }
    }
    tails[head as usize] = 1u32 << tail;
}
