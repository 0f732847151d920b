// What the edges of a tree cost to replace: from the key of the edge and the least key of an edge that reconnects its
// two sides.
ghost use Rattle.std.specs.Prelude.{◌≡◌, true, ◌&&◌, ◌≢◌, ◌<◌, eqb, take};
ghost use Rattle.instance.specs.Arborescence.{parent, reaches};
ghost use Rattle.spanning.specs.Keys.{cost_by};
ghost use Rattle.spanning.specs.KeyTables.{crossing_key, least_into, least_crossing};
ghost use Rattle.runs.specs.Tables.{Tree, BelowTable};
ghost use Rattle.runs.specs.Replacement.{cost_of, Costs};

use instance::limits::{CELLS, VERTICES};
use prim::keys::NO_KEY;

// "4,294,967,295 if there is none or the run is pinned"
pub const NO_REPLACEMENT: u32 = 4_294_967_295;

// A tree, the keys of all edges, and who is below whom.
#[derive(Clone, Copy)]
pub struct KeyedTree<'a> {
    pub keys: &'a [u32; CELLS],
    pub below: &'a [bool; CELLS],
    pub parents: &'a [u8; VERTICES],
    pub n: u32,
    ghost rooted: { Tree n parents.now },
    ghost table: { BelowTable n parents.now below.now },
}

// Whether i and j are the ends of the edge from v to its parent, v below.
fn is_own(tree: &KeyedTree<'_>, v: u32, j: u32, i: u32) -> bool
    requires { (v < tree.now.n) × (i < tree.now.n) }
    ensures { result ≡ eqb i (parent (take tree.now.n tree.now.parents.now) v) && eqb j v }
{
    j == v && tree.parents[v as usize] == i as u8
}

// The key of the edge from i to j, which is below v, if it reconnects the two sides of v's own edge.
fn crossing_key(tree: &KeyedTree<'_>, v: u32, j: u32, i: u32) -> u32
    requires { (v < tree.now.n) × (v ≢ 0) × (j < tree.now.n) × (i < tree.now.n) × (reaches tree.now.n v (take tree.now.n tree.now.parents.now) j ≡ true) }
    ensures { result ≡ crossing_key tree.now.keys.now tree.now.n (take tree.now.n tree.now.parents.now) v j i }
{
    if tree.below[(32 * v + i) as usize] || is_own(tree, v, j, i) {
        return NO_KEY;
    }
    tree.keys[(32 * i + j) as usize]
}

fn least_into(tree: &KeyedTree<'_>, v: u32, j: u32) -> u32
    requires { (v < tree.now.n) × (v ≢ 0) × (j < tree.now.n) }
    ensures { result ≡ least_into tree.now.keys.now tree.now.n (take tree.now.n tree.now.parents.now) v j }
{
    if !tree.below[(32 * v + j) as usize] {
        return NO_KEY;
    }
    let mut least = NO_KEY;
    for i in 0..tree.n {
        least = least.min(crossing_key(tree, v, j, i));
    }
    least
}

// The least key of an edge that reconnects the two sides of v's own edge, or NO_KEY.
fn least_crossing(tree: &KeyedTree<'_>, v: u32) -> u32
    requires { (v < tree.now.n) × (v ≢ 0) }
    ensures { result ≡ least_crossing tree.now.keys.now tree.now.n (take tree.now.n tree.now.parents.now) v }
{
    let mut least = NO_KEY;
    for j in 0..tree.n {
        least = least.min(least_into(tree, v, j));
    }
    least
}

// The cost by the edge's own key and that least one: a difference of keys is one of weights.
fn cost_by(own: u32, least: u32) -> u32
    ensures { result ≡ cost_by own least }
{
    if own == 0 || least == NO_KEY {
        return NO_REPLACEMENT;
    }
    least.saturating_sub(own)
}

// The cost of the edge from v to its parent; vertex 0 has none.
fn cost_of(tree: &KeyedTree<'_>, v: u32) -> u32
    requires { v < tree.now.n }
    ensures { result ≡ cost_of tree.now.keys.now tree.now.n (take tree.now.n tree.now.parents.now) v }
{
    if v == 0 {
        return 0;
    }
    let tail = tree.parents[v as usize] as u32;
    let own = tree.keys[(32 * tail + v) as usize];
    let least = least_crossing(tree, v);
    cost_by(own, least)
}

pub fn edge_costs(tree: &KeyedTree<'_>) -> [u32; VERTICES]
    ensures { Costs tree.now.keys.now tree.now.n (take tree.now.n tree.now.parents.now) tree.now.n result }
{
    let mut costs = [0u32; VERTICES];
    for v in 0..tree.n {
        costs[v as usize] = cost_of(tree, v);
    }
    costs
}
