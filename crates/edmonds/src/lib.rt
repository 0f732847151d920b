// Minimum weight arborescences by Edmonds' algorithm (Algorithm 1 of document 000), on the caller's weight matrix,
// which is lowered in place: afterwards it holds the reduced costs. Vertices keep their numbers through every
// contraction; a label for each vertex tells its group.
#![tactic(auto)]

ghost use Rattle.std.specs.Prelude.{◌≡◌, ◌+◌, ◌-◌, ◌≤◌, ◌<◌, IfOk, IfErr};
ghost use Rattle.instance.specs.Limits.{max_vertices, max_cuts, word_limit};
ghost use Rattle.instance.specs.Cuts.{cuts_in, values};
ghost use Rattle.instance.specs.Matrix.{MatrixOk};
ghost use Rattle.contraction.specs.Cells.{OwnLabels};
ghost use Rattle.edmonds.specs.Planned.{PlannedMatrix, NonePlanned};

mod level; // level.rt: a level of contraction, planned by a call on the next

pub use charging::charge::Unreached;
use charging::charge::charge_group;
use cycles::groups::Groups;
use instance::limits::{CELLS, CUT_WORDS, NO_PARENT, VERTICES};
use instance::{CutIndex, Vertex};
use level::plan_groups;

// An arborescence by its parents, with its total and the number of cuts.
#[derive(Clone, Copy)]
pub struct Planned {
    pub parents: [u8; VERTICES],
    pub total: u32,
    pub count: u32,
}

// Each vertex is its own label.
fn own_labels() -> [u8; VERTICES]
    ensures { OwnLabels result }
{
    let mut label = [0u8; VERTICES];
    for i in 0..VERTICES {
        label[i] = i as u8;
    }
    label
}

// A bound on the number of groups, two at least.
fn group_bound(n: usize) -> u32
    requires { n ≤ max_vertices }
    ensures { result ≡ n + (2 - n) }
{
    if n < 2 { 2 } else { n as u32 }
}

// "All amounts add to the cheapest total."
fn cut_total(cuts: &[u32; CUT_WORDS], count: u32) -> u32
    requires { (count ≤ max_cuts) × (values (cuts_in count cuts.now) < word_limit) }
    ensures { result ≡ values (cuts_in count cuts.now) }
{
    let mut sum: u32 = 0;
    for k in (0..count as usize).rev() {
        sum += cuts[2 * k + 1];
    }
    sum
}

// Plans a weight matrix with a stride of 32. "Each position first takes its cheapest entering link": every vertex but
// the root is charged by itself, and then the groups are planned. Where there is no arborescence, the matrix and the
// cuts are left as they may be.
pub fn plan_matrix(
    w: &mut [u32; CELLS],
    n: usize,
    root: Vertex,
    cuts: &mut [u32; CUT_WORDS],
) -> Result<Planned, Unreached>
    requires { MatrixOk n root.0 w.old }
    ensures ok { IfOk result (PlannedMatrix w.old w.new n root.0 cuts.old cuts.new) }
    ensures err { IfErr result (λ e. NonePlanned w.old n root.0 e.set) }
{
    let r = root.0;
    let label = own_labels();
    let mut tails = [NO_PARENT; VERTICES];
    let mut heads = [NO_PARENT; VERTICES];
    let mut next = CutIndex(0);
    for v in 0..n {
        let g = v as u32;
        if g != r {
            let chosen = charge_group(w, &label, n, Vertex(g), next, cuts)?;
            tails[v] = chosen.tail.0 as u8;
            heads[v] = chosen.head.0 as u8;
            next = chosen.next;
        }
    }
    let left = group_bound(n);
    let groups = Groups {
        label: &label,
        tails: &tails,
        heads: &heads,
        n,
        root,
    };
    let tree = plan_groups(w, groups, left, next, cuts)?;
    let parents = tree.parents;
    let count = tree.next.0;
    Ok(Planned {
        parents,
        total: cut_total(cuts, count),
        count,
    })
}
