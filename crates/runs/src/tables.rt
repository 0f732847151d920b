// Two tables of a tree, with a stride of 32: who is below whom, and the greatest key on the path between any two
// vertices. They are filled vertex by vertex, each after its parent, which has all but the vertex's own edge in its
// columns.
ghost use Rattle.std.specs.Prelude.{◌≡◌, false, ◌≢◌, ◌≤◌, ◌<◌};
ghost use Rattle.instance.specs.Limits.{max_vertices};
ghost use Rattle.runs.specs.Tables.{Tree, is_done, is_ready, Readied, ExtendsBelow, ExtendsBetween, TablesOf};

use instance::limits::{CELLS, VERTICES};

// Set in the row of v at its descendants; the greatest key between any two.
#[derive(Clone, Copy)]
pub struct Tables {
    pub below: [bool; CELLS],
    pub between: [u32; CELLS],
}

// Whether a vertex is not done and its parent is.
fn is_ready(parents: &[u8; VERTICES], done: &[bool; VERTICES], n: u32, v: u32) -> bool
    requires { Tree n parents.now × (v < n) × (v ≢ 0) }
    ensures { result ≡ is_ready parents.now done.now v }
{
    let tail = parents[v as usize] as usize;
    !done[v as usize] && done[tail]
}

// Such a vertex.
fn next_ready(parents: &[u8; VERTICES], done: &[bool; VERTICES], n: u32) -> Option<u32>
    requires { (1 ≤ n) × Tree n parents.now }
    ensures { Readied parents.now done.now n result }
{
    for v in 1..n {
        if is_ready(parents, done, n, v) {
            return Some(v);
        }
    }
    None
}

// A vertex is below what its parent is below, and below itself.
fn extend_below(n: u32, v: u32, tail: u32, below: &mut [bool; CELLS])
    requires { (n ≤ max_vertices) × (v < n) × (tail < n) }
    ensures { ExtendsBelow n v tail below.old below.new }
{
    for y in 0..n {
        below[(32 * y + v) as usize] = below[(32 * y + tail) as usize];
    }
    below[(32 * v + v) as usize] = true;
}

// Between a vertex and one that is done: its own edge, or what is between its parent and that one.
fn extend_between(
    done: &[bool; VERTICES],
    n: u32,
    v: u32,
    tail: u32,
    key: u32,
    between: &mut [u32; CELLS],
)
    requires { (n ≤ max_vertices) × (v < n) × (tail < n) × (tail ≢ v) × (is_done done.now v ≡ false) }
    ensures { ExtendsBetween done.now v tail key n between.old between.new }
{
    for x in 0..n {
        if done[x as usize] {
            let greatest = key.max(between[(32 * tail + x) as usize]);
            between[(32 * v + x) as usize] = greatest;
            between[(32 * x + v) as usize] = greatest;
        }
    }
}

pub fn fill_tables(keys: &[u32; CELLS], parents: &[u8; VERTICES], n: u32) -> Tables
    requires { (1 ≤ n) × Tree n parents.now }
    ensures { TablesOf keys.now n parents.now result.below result.between }
{
    let mut below = [false; CELLS];
    let mut between = [0u32; CELLS];
    let mut done = [false; VERTICES];
    done[0] = true;
    while let Some(v) = next_ready(parents, &done, n) {
        let tail = parents[v as usize] as u32;
        let key = keys[(32 * tail + v) as usize];
        extend_below(n, v, tail, &mut below);
        extend_between(&done, n, v, tail, key, &mut between);
        done[v as usize] = true;
    }
    Tables { below, between }
}
