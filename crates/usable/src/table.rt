// A table of arcs: 1 at the cell of an arc that is used.
ghost use Rattle.std.specs.Prelude.{◌≡◌, ◌≤◌, length, take};
ghost use Rattle.instance.specs.Limits.{max_vertices, cells};
ghost use Rattle.paths.specs.Paths.{Rooted};
ghost use Rattle.usable.specs.Table.{TreeAdded};

use instance::limits::{CELLS, VERTICES};

// Adds each arc of the tree.
pub fn add_tree(parents: &[u8; VERTICES], n: u32, root: u32, used: &mut [u8; CELLS])
    requires { (n ≤ max_vertices) × Rooted n root (take n parents.now) }
    ensures { TreeAdded (take n parents.now) n root used.old used.new }
{
    for v in 0..n {
        if v != root {
            let tail = parents[v as usize] as u32;
            used[(32 * tail + v) as usize] = 1;
        }
    }
}
