// Detours: what it costs to make a cheapest tree use an arc. An arc whose tail is no descendant of its head can replace
// the arc into the head. Otherwise it closes a cycle down the path from head to tail, and some vertex on that path has
// to take a parent that is no descendant of the head. A cost that is not known is NO_ARC, the documents' weight of no
// arc, and no Option: it is above every cost, so that the least of several needs no cases.
#![tactic(auto)]

pub mod descendants; // descendants.rt: the descendants of a vertex
mod increases; // increases.rt: what it costs to give a vertex another parent

ghost use Rattle.std.specs.Prelude.{◌≡◌, ◌≢◌, ◌≤◌, ◌<◌, length, take};
ghost use Rattle.instance.specs.Limits.{max_vertices};
ghost use Rattle.instance.specs.Matrix.{unmarked};
ghost use Rattle.paths.specs.Paths.{Rooted, Descends};
ghost use Rattle.paths.specs.Tree.{MatrixTree};
ghost use Rattle.detours.specs.Detours.{PathLeast, Detours};

use descendants::descendants;
use increases::increases;
use instance::limits::{CELLS, NO_ARC, VERTICES};

// The least increase on the path from the tail up to the head.
fn path_least(
    parents: &[u8; VERTICES],
    table: &[u32; VERTICES],
    n: u32,
    root: u32,
    tail: u32,
    head: u32,
) -> u32
    requires { (n ≤ max_vertices) × Rooted n root (take n parents.now) × (head < n) × (head ≢ root) × (tail < n) × Descends (take n parents.now) head tail }
    ensures { PathLeast (take n parents.now) table.now tail head result }
{
    let mut least = NO_ARC;
    let mut v = tail;
    while v != head {
        let d = table[v as usize];
        if d < least {
            least = d;
        }
        v = parents[v as usize] as u32;
    }
    least
}

// What the arc from each tail to the head adds besides its own weight, when it replaces the arc into the head.
pub fn detour_costs(
    m: &[u32; CELLS],
    parents: &[u8; VERTICES],
    n: u32,
    root: u32,
    head: u32,
) -> [u32; VERTICES]
    requires { MatrixTree n root m.now parents.now × (head < n) × (head ≢ root) }
    ensures { Detours (unmarked n root m.now) (take n parents.now) head n result }
{
    let under = descendants(parents, n, root, head);
    let added = increases(m, parents, &under, n, root);
    let mut table = [0u32; VERTICES];
    for t in 0..n {
        let mut d = 0;
        if under[t as usize] {
            d = path_least(parents, &added, n, root, t, head);
        }
        table[t as usize] = d;
    }
    table
}
