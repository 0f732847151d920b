// The cheapest arborescence that uses one arc: planning on a copy of the matrix with the other arcs into its head taken
// out.
ghost use Rattle.std.specs.Prelude.{◌≡◌, true, ◌≤◌, ◌<◌, IfSome, IfNone};
ghost use Rattle.instance.specs.Limits.{max_vertices};
ghost use Rattle.instance.specs.Arborescence.{remaining};
ghost use Rattle.instance.specs.Matrix.{unmarked, MatrixOk};
ghost use Rattle.usable.specs.Forced.{ForcedMatrix, ForcedPlan, NoneForced};

use edmonds::Planned;
use instance::Vertex;
use instance::limits::{CELLS, CUT_WORDS, NO_ARC};

// Takes the other arcs into the head out of the matrix.
pub fn force_arc(w: &mut [u32; CELLS], n: u32, tail: u32, head: u32)
    requires { (n ≤ max_vertices) × (head < max_vertices) }
    ensures { ForcedMatrix w.old w.new n tail head }
{
    for g in 0..n {
        if g != tail {
            w[(32 * g + head) as usize] = NO_ARC;
        }
    }
}

// A cheapest arborescence that uses the arc, if there is one. Nobody needs its cuts.
pub fn plan_with(m: &[u32; CELLS], n: u32, root: u32, tail: u32, head: u32) -> Option<Planned>
    requires { MatrixOk n root m.now × (remaining (unmarked n root m.now) tail head ≡ true) }
    ensures some { IfSome result (ForcedPlan m.now n root tail head) }
    ensures none { IfNone result (NoneForced m.now n root tail head) }
{
    let mut w = *m;
    force_arc(&mut w, n, tail, head);
    let mut cuts = [0u32; CUT_WORDS];
    edmonds::plan_matrix(&mut w, n as usize, Vertex(root), &mut cuts).ok()
}
