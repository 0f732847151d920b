// The first cheapest arborescence: "among all cheapest feed trees, the first when compared position by position" (02,
// A10). Planning has found some cheapest arborescence, its cuts and the reduced costs. Every cheapest one has arcs of
// reduced cost 0 alone, and no two of its arcs enter one cut. So the tails that each vertex can have are kept as sets;
// the vertices are settled upwards, each with its least tail that can be had, and what cannot stand beside the arcs
// settled so far goes out of the sets. Few tails are left to be tried below those of the tree at hand, and nearly all
// of them are decided without planning.
#![tactic(auto)]

mod attempt; // attempt.rt: whether a tail can be had
mod fixing; // fixing.rt: an arc fixed, and what cannot stand beside it taken out
mod growth; // growth.rt: a tree grown from the root
mod tails; // tails.rt: the tails that arcs of reduced cost 0 come from

ghost use Rattle.std.specs.Prelude.{◌≡◌, ◌≢◌, ◌<◌, length, take};
ghost use Rattle.instance.specs.Limits.{max_vertices};
ghost use Rattle.instance.specs.Candidates.{first_tree};
ghost use Rattle.instance.specs.Matrix.{unmarked};
ghost use Rattle.first_tree.specs.Search.{Search, PlannedTree, Settled, LeastParent};

use attempt::try_tail;
use checks::sets::is_inside;
use fixing::{first_group, fix_arc};
use instance::CutIndex;
use instance::limits::{CELLS, CUT_WORDS, VERTICES};
use tails::tight_tails;

// What the search goes by.
#[derive(Clone, Copy)]
pub struct Cheapest<'a> {
    pub m: &'a [u32; CELLS], // the weights of the remaining arcs
    pub cuts: &'a [u32; CUT_WORDS], // the cuts that prove the total
    pub n: u32, // the number of vertices
    pub root: u32, // one of them
    pub total: u32, // the cheapest total
    pub from: CutIndex, // the cuts from this one on are looked at
    pub count: u32, // the number of cuts
}

// The tree at hand, or another, with the least tail into the vertex that can be had.
fn least_parent(
    search: Cheapest, // what the search goes by
    tails: &[u32; VERTICES], // the tails that each vertex can still have
    parents: [u8; VERTICES], // the tree at hand
    vertex: u32, // the one to be settled
) -> [u8; VERTICES]
    requires { Search search.m.now search.cuts.now search.n search.root search.total search.from.0 search.count × Settled search.m.now search.n search.root search.total vertex tails.now parents × (vertex < search.n) × (vertex ≢ search.root) }
    ensures { Settled search.entry.m.now search.entry.n search.entry.root search.entry.total vertex tails.entry.now result × LeastParent search.entry.m.now search.entry.n search.entry.root search.entry.total vertex result }
{
    let own = parents[vertex as usize] as u32;
    let set = tails[vertex as usize];
    for t in 0..own {
        if is_inside(set, t) {
            if let Some(tree) = try_tail(search, tails, parents, t, vertex) {
                return tree;
            }
        }
    }
    parents
}

pub fn first_tree(
    m: &[u32; CELLS], // the weights of the remaining arcs
    reduced: &[u32; CELLS], // their reduced costs
    cuts: &[u32; CUT_WORDS], // the cuts that prove the total
    parents: [u8; VERTICES], // a cheapest arborescence
    n: u32, // the number of vertices
    root: u32, // one of them
    total: u32, // the cheapest total
    count: u32, // the number of cuts
) -> [u8; VERTICES]
    requires { Search m.now cuts.now n root total 0 count × PlannedTree m.now reduced.now cuts.now n root total count parents }
    ensures { (length result ≡ max_vertices) × (take n result ≡ first_tree (unmarked n root m.now)) }
{
    let from = first_group(cuts, count);
    let search = Cheapest {
        m,
        cuts,
        n,
        root,
        total,
        from,
        count,
    };
    let mut tails = tight_tails(m, reduced, n, root);
    let mut first = parents;
    for v in 0..n {
        if v != root {
            first = least_parent(search, &tails, first, v);
            let tail = first[v as usize] as u32;
            fix_arc(search, tail, v, &mut tails);
        }
    }
    first
}
