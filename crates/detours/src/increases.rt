// What it costs to give each inner vertex, of a table that has true at these, a parent from outside.
ghost use Rattle.std.specs.Prelude.{◌≤◌, ◌<◌, take};
ghost use Rattle.instance.specs.Limits.{max_vertices};
ghost use Rattle.paths.specs.Tree.{MatrixTree};
ghost use Rattle.detours.specs.Increases.{LeastOutside, Increase, Increases};

use instance::limits::{CELLS, NO_ARC, VERTICES};

// The least weight into the vertex from a tail outside.
fn least_outside(m: &[u32; CELLS], inner: &[bool; VERTICES], n: u32, vertex: u32) -> u32
    requires { (n ≤ max_vertices) × (vertex < max_vertices) }
    ensures { LeastOutside m.now inner.now n vertex result }
{
    let mut least = NO_ARC;
    for x in 0..n {
        let w = m[(32 * x + vertex) as usize];
        if !inner[x as usize] && w < least {
            least = w;
        }
    }
    least
}

// What such a tail adds to the weight of the vertex's own arc.
fn increase(
    m: &[u32; CELLS],
    parents: &[u8; VERTICES],
    inner: &[bool; VERTICES],
    n: u32,
    root: u32,
    vertex: u32,
) -> u32
    requires { MatrixTree n root m.now parents.now × (vertex < n) }
    ensures { Increase m.now (take n parents.now) inner.now n vertex result }
{
    if vertex == root || !inner[vertex as usize] {
        return NO_ARC;
    }
    let least = least_outside(m, inner, n, vertex);
    let tail = parents[vertex as usize] as u32;
    let own = m[(32 * tail + vertex) as usize];
    if least == NO_ARC {
        return NO_ARC;
    }
    if least < own {
        return 0;
    }
    least - own
}

pub fn increases(
    m: &[u32; CELLS],
    parents: &[u8; VERTICES],
    inner: &[bool; VERTICES],
    n: u32,
    root: u32,
) -> [u32; VERTICES]
    requires { MatrixTree n root m.now parents.now }
    ensures { Increases m.now (take n parents.now) inner.now n n result }
{
    let mut table = [NO_ARC; VERTICES];
    for k in 0..n {
        table[k as usize] = increase(m, parents, inner, n, root, k);
    }
    table
}
