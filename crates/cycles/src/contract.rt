// Contraction: "a closed ring of positions is drawn together".

ghost use Rattle.std.specs.Prelude.{◌≤◌, ◌<◌};
ghost use Rattle.instance.specs.Limits.{max_vertices};
ghost use Rattle.contraction.specs.Cells.{LabelsBelow};
ghost use Rattle.cycles.specs.Contract.{Contracted};

use super::cycle::Cycle;
use super::groups::Groups;
use instance::limits::VERTICES;

// The labels after the cycle's groups have become one, with the label of the group that the cycle names.
pub fn contracted_labels(groups: Groups, cycle: &Cycle) -> [u8; VERTICES]
    requires { (groups.n ≤ max_vertices) × (cycle.now.at.0 < groups.n) × LabelsBelow groups.n groups.label.now }
    ensures { Contracted groups.entry.label.now cycle.now.stamp groups.entry.n cycle.now.at.0 result }
{
    let label = groups.label;
    let stamp = &cycle.stamp;
    let n = groups.n;
    let at = cycle.at.0 as usize;
    let first = stamp[at];
    let mut out = [0u8; VERTICES];
    for u in 0..n {
        let g = label[u] as usize;
        if first <= stamp[g] {
            out[u] = at as u8;
        } else {
            out[u] = g as u8;
        }
    }
    out
}
