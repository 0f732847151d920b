// Lowering the arcs into a group by a value, column by column.

ghost use Rattle.std.specs.Prelude.{◌≡◌, ◌≤◌, ◌<◌, length};
ghost use Rattle.instance.specs.Limits.{max_vertices, cells};
ghost use Rattle.contraction.specs.Cells.{nth};
ghost use Rattle.charging.specs.Lower.{Affords, AffordsInto, LoweredInto, LoweredCells};

use instance::Vertex;
use instance::limits::{CELLS, NO_ARC, VERTICES};

// The arcs from outside the group into its vertex h.
fn lower_into(
    w: &mut [u32; CELLS],
    label: &[u8; VERTICES],
    n: usize,
    g: Vertex,
    h: usize,
    value: u32,
)
    requires w_len { (n ≤ max_vertices) × (g.0 < n) × (h < n) × (nth label.now h ≡ g.0) }
    requires affords_into { AffordsInto w.old label.now n g.0 h value }
    ensures { LoweredInto w.old w.new label.now n g.0 h value }
{
    let group = g.0 as u8;
    for t in 0..n {
        if label[t] != group {
            let x = w[32 * t + h];
            if x < NO_ARC {
                w[32 * t + h] = x - value;
            }
        }
    }
}

pub fn lower_arcs(w: &mut [u32; CELLS], label: &[u8; VERTICES], n: usize, g: Vertex, value: u32)
    requires { (n ≤ max_vertices) × (g.0 < n) × Affords w.old label.now n g.0 value }
    ensures { LoweredCells w.old w.new label.now n g.0 value n }
{
    let own = g.0 as u8;
    for h in 0..n {
        if label[h] == own {
            lower_into(w, label, n, g, h, value);
        }
    }
}
