// Expansion: "opening the ring again drops exactly one of its links". And the arcs where there is no cycle to expand.
#![tactic(auto)]

ghost use Rattle.std.specs.Prelude.{◌≡◌, ◌≤◌, ◌<◌};
ghost use Rattle.instance.specs.Limits.{max_vertices};
ghost use Rattle.contraction.specs.Cells.{LabelsBelow};
ghost use Rattle.expansion.specs.Expansion.{OwnArcs, CycleEntry, CycleEntered, Expanded, Expansion};

use cycles::cycle::Cycle;
use cycles::groups::Groups;
use instance::Vertex;
use instance::limits::{NO_PARENT, VERTICES};

// Each group's own arc, at the vertex that it enters.
pub fn own_parents(groups: Groups) -> [u8; VERTICES]
    requires { (groups.n ≤ max_vertices) × (groups.root.0 < groups.n) × LabelsBelow groups.n groups.label.now }
    ensures { OwnArcs groups.entry.label.now groups.entry.tails.now groups.entry.heads.now groups.entry.n groups.entry.root.0 result }
{
    let label = groups.label;
    let tails = groups.tails;
    let heads = groups.heads;
    let n = groups.n;
    let r = groups.root.0 as usize;
    let top = label[r] as usize;
    let mut out = [NO_PARENT; VERTICES];
    for v in 0..n {
        let g = label[v] as usize;
        if g != top {
            let here = v as u8;
            if heads[g] == here {
                out[v] = tails[g];
            }
        }
    }
    out
}

// The vertex at which the arc chosen outside enters the cycle.
fn entry_vertex(groups: Groups, cycle: &Cycle, parents: &[u8; VERTICES]) -> Vertex
    requires { (groups.n ≤ max_vertices) × (cycle.now.at.0 < groups.n) × LabelsBelow groups.n groups.label.now × CycleEntered groups.label.now cycle.now.stamp parents.now groups.n cycle.now.at.0 }
    ensures { CycleEntry groups.entry.label.now cycle.now.stamp parents.now groups.entry.n cycle.now.at.0 result.0 }
{
    let label = groups.label;
    let stamp = &cycle.stamp;
    let n = groups.n;
    let at = cycle.at.0 as usize;
    let first = stamp[at];
    let bound = n as u8;
    for u in 0..n {
        let g = label[u] as usize;
        if first <= stamp[g] {
            if parents[u] < bound {
                return Vertex(u as u32);
            }
        }
    }
    Vertex(0)
}

// Each group of the cycle but the entry's takes its own arc again.
fn take_arcs(
    groups: Groups, // before the cycle was contracted
    cycle: &Cycle,
    entry: Vertex, // where the cycle is entered
    parents: &mut [u8; VERTICES], // the tree of the contracted groups, which becomes one of these groups
)
    requires { (groups.n ≤ max_vertices) × (cycle.now.at.0 < groups.n) × (entry.0 < groups.n) × LabelsBelow groups.n groups.label.now }
    ensures { Expanded groups.entry.label.now cycle.entry.now.stamp groups.entry.tails.now groups.entry.heads.now groups.entry.n cycle.entry.now.at.0 entry.0 parents.entry.now parents.exit.now }
{
    let label = groups.label;
    let tails = groups.tails;
    let heads = groups.heads;
    let stamp = &cycle.stamp;
    let n = groups.n;
    let at = cycle.at.0 as usize;
    let first = stamp[at];
    let e = entry.0 as usize;
    let entered = label[e] as usize;
    for u in 0..n {
        let g = label[u] as usize;
        if first <= stamp[g] {
            if g != entered {
                let here = u as u8;
                if heads[g] == here {
                    parents[u] = tails[g];
                }
            }
        }
    }
}

// Expands the cycle: only the arc that the one chosen outside replaces is dropped.
pub fn expand_cycle(groups: Groups, cycle: &Cycle, parents: &mut [u8; VERTICES])
    requires { (groups.n ≤ max_vertices) × (cycle.now.at.0 < groups.n) × LabelsBelow groups.n groups.label.now × CycleEntered groups.label.now cycle.now.stamp parents.old groups.n cycle.now.at.0 }
    ensures { Expansion groups.entry.label.now cycle.now.stamp groups.entry.tails.now groups.entry.heads.now groups.entry.n cycle.now.at.0 parents.old parents.new }
{
    let entry = entry_vertex(groups, cycle, parents);
    take_arcs(groups, cycle, entry, parents);
}
