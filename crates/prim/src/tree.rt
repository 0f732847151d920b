// A cheapest spanning tree: the grown tree, if it has all pinned edges; if it misses one, there is no spanning tree.
// And its total.
ghost use Rattle.std.specs.Prelude.{◌≡◌, ◌≤◌, ◌<◌, length, take};
ghost use Rattle.instance.specs.Limits.{max_vertices};
ghost use Rattle.base.specs.Bounded.{sum_below};
ghost use Rattle.spanning.specs.SpanningTrees.{joins};
ghost use Rattle.spanning.specs.KeyTables.{keeps_zero};
ghost use Rattle.prim.specs.Tree.{zero_at, Finds, edge_cost, Summable};

use crate::growth::grow;
use crate::place::Place;
use instance::limits::{CELLS, VERTICES};

// Whether a tree has the edge between i and j.
pub fn is_joined(parents: &[u8; VERTICES], n: u32, i: u32, j: u32) -> bool
    requires { (n ≤ max_vertices) × (i < n) × (j < n) }
    ensures { result ≡ joins (take n parents.now) i j }
{
    parents[j as usize] == i as u8 || parents[i as usize] == j as u8
}

// Whether a tree has the edge between i and j, if its key is 0.
fn zero_joined(keys: &[u32; CELLS], parents: &[u8; VERTICES], n: u32, i: u32, j: u32) -> bool
    requires { (n ≤ max_vertices) × (i < n) × (j < n) }
    ensures { result ≡ zero_at keys.now (take n parents.now) i j }
{
    i == j || keys[(32 * i + j) as usize] != 0 || is_joined(parents, n, i, j)
}

// Whether a tree has every edge of key 0.
fn has_pinned(keys: &[u32; CELLS], parents: &[u8; VERTICES], n: u32) -> bool
    requires { n ≤ max_vertices }
    ensures { result ≡ keeps_zero keys.now n (take n parents.now) }
{
    let mut place = Place::first();
    for _ in 0..n * n {
        if !zero_joined(keys, parents, n, place.row, place.column) {
            return false;
        }
        place = place.next(n);
    }
    true
}

// The parents of such a tree.
pub fn cheapest_tree(keys: &[u32; CELLS], n: u32) -> Option<[u8; VERTICES]>
    requires { (1 ≤ n) × (n ≤ max_vertices) }
    ensures { Finds keys.now n result }
{
    let parents = grow(keys, n)?;
    if !has_pinned(keys, &parents, n) {
        return None;
    }
    Some(parents)
}

// What a tree costs.
pub fn total_of(weights: &[u32], parents: &[u8; VERTICES], n: u32) -> u32
    requires { (1 ≤ n) × Summable weights.now parents.now n }
    ensures { result ≡ sum_below n (edge_cost weights.now parents.now n) }
{
    let mut sum: u32 = 0;
    for v in 1..n {
        let tail = parents[v as usize] as u32;
        sum += weights[(tail * n + v) as usize];
    }
    sum
}
