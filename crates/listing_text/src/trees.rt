// The line of a tree: its parents and its total.
ghost use Rattle.std.specs.Prelude.{◌≡◌, cond, ◌≤◌, ◌<◌, eqb, length};
ghost use Rattle.base.specs.Lists.{join_below};
ghost use Rattle.instance.specs.Limits.{max_vertices, cells};
ghost use Rattle.instance.specs.Instance.{weight};
ghost use Rattle.instance.specs.Arborescence.{parent, total};
ghost use Rattle.instance.specs.Matrix.{unmarked, Weights};
ghost use Rattle.text.specs.Buffer.{Room, Puts};
ghost use Rattle.listing_text.specs.Trees.{parent_text, tree_line};

use instance::limits::CELLS;
use report_text::listed_weight;
use text::buffer::put_bytes;
use text::lines::{put_labelled, put_line};

// The longest line (`tree_length` in proofs/): 32 parents of at most three digits, and a total of eight.
pub const MAX_LINE: usize = 148;

// The parents of all vertices, the root's 255 too.
fn put_parents(parents: &[u8], n: u32, out: &mut [u8], at: usize) -> usize
    requires n_in_bounds { n ≤ length parents.now }
    requires room { Room (join_below n (parent_text parents.now)) out.old at }
    ensures { Puts (join_below n (parent_text parents.now)) out.old out.new at result }
{
    let mut next = at;
    for v in 0..n as usize {
        next = put_labelled(b" ", parents[v] as u32, out, next);
    }
    next
}

// What the arc into v costs; the root has none.
fn weight_into(weights: &[u32; CELLS], parents: &[u8], n: u32, root: u32, v: u32) -> u32
    requires weights_len { length weights.now ≡ cells }
    requires v_in_bounds { v < length parents.now }
    ensures { result ≡ cond (eqb v root) 0 (weight (unmarked n root weights.now) (parent parents.now v) v) }
{
    if v == root {
        return 0;
    }
    listed_weight(weights, parents[v as usize], v)
}

// No weight is above that of no arc, so that the sum of 32 is far from overflowing.
fn tree_total(weights: &[u32; CELLS], parents: &[u8], n: u32, root: u32) -> u32
    requires weights_len { (length weights.now ≡ cells) × Weights weights.now }
    requires n_le_max_vertices { (n ≤ max_vertices) × (n ≤ length parents.now) }
    ensures { result ≡ total (unmarked n root weights.now) parents.now }
{
    let mut sum = 0;
    for v in 0..n {
        sum += weight_into(weights, parents, n, root, v);
    }
    sum
}

// weights: the instance's, with n vertices and that root. parents: those of the tree. The line goes into `out` from the
// place `at` on.
pub fn put_tree(
    weights: &[u32; CELLS],
    parents: &[u8],
    n: u32,
    root: u32,
    out: &mut [u8],
    at: usize,
) -> usize
    requires weights_len { (length weights.now ≡ cells) × Weights weights.now }
    requires n_le_max_vertices { (n ≤ max_vertices) × (n ≤ length parents.now) }
    requires room { Room (tree_line (unmarked n root weights.now) parents.now) out.old at }
    ensures { Puts (tree_line (unmarked n root weights.now) parents.now) out.old out.new at result }
{
    let named = put_bytes(b"tree", out, at);
    let listed = put_parents(parents, n, out, named);
    let total = tree_total(weights, parents, n, root);
    put_line(b" total ", total, out, listed)
}
