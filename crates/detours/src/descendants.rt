// The descendants of a vertex in a tree.
ghost use Rattle.std.specs.Prelude.{◌≡◌, ◌≢◌, ◌≤◌, ◌<◌, length, take};
ghost use Rattle.instance.specs.Limits.{max_vertices};
ghost use Rattle.paths.specs.Paths.{Rooted};
ghost use Rattle.detours.specs.Descendants.{DescendantFlag, Descendants};

use instance::limits::VERTICES;

// Whether the vertex is a descendant of the head, as the head is itself.
pub fn is_descendant(parents: &[u8; VERTICES], n: u32, root: u32, head: u32, vertex: u32) -> bool
    requires { (n ≤ max_vertices) × Rooted n root (take n parents.now) × (head < n) × (head ≢ root) × (vertex < n) }
    ensures { DescendantFlag (take n parents.now) head vertex result }
{
    let mut v = vertex;
    while v != root {
        if v == head {
            return true;
        }
        v = parents[v as usize] as u32;
    }
    false
}

pub fn descendants(parents: &[u8; VERTICES], n: u32, root: u32, head: u32) -> [bool; VERTICES]
    requires { (n ≤ max_vertices) × Rooted n root (take n parents.now) × (head < n) × (head ≢ root) }
    ensures { Descendants (take n parents.now) n head result }
{
    let mut table = [false; VERTICES];
    for v in 0..n {
        table[v as usize] = is_descendant(parents, n, root, head, v);
    }
    table
}
