// The plan of a matrix: outcome, first tree and cuts, or that there is no tree. What a planning of the matrix gave is
// turned into it; which arcs are usable nobody asks here.
ghost use Rattle.std.specs.Prelude.{◌≡◌, length, set as set_at, replicate, IfOk, IfErr};
ghost use Rattle.std.proofs.Math.Option.{some};
ghost use Rattle.instance.specs.Limits.{max_vertices, no_parent, cut_words};
ghost use Rattle.instance.specs.Matrix.{matrix_instance, MatrixOk};
ghost use Rattle.instance.specs.States.{outcome_at as outcome-by};
ghost use Rattle.instance.specs.declared.Outcome.TheVariants as outcomes;
ghost use Rattle.edmonds.specs.Planned.{PlannedMatrix, NonePlanned};
ghost use Rattle.survey.specs.FirstPlan.{PlansFirst};

use edmonds::{Planned, Unreached};
use first_tree::first_tree;
use instance::limits::{CELLS, CUT_WORDS, NO_PARENT, VERTICES};
use instance::{Outcome, Vertex};

// The outcome, the parents of the first tree, the number of cuts, and the cuts as pairs of words.
#[derive(Clone, Copy)]
pub struct FirstPlan {
    pub outcome: Outcome,
    pub parents: [u8; VERTICES],
    pub pairs: u32,
    pub cuts: [u32; CUT_WORDS],
}

fn outcome_at(budget: u32, total: u32) -> Outcome
    ensures { result ≡ outcome-by budget (some total) }
{
    if total <= budget {
        return Outcome::Plan(total);
    }
    Outcome::Over(total)
}

// Where there is no arborescence: no tree is shown; one pair, a set that no remaining arc enters and the value 0.
pub(crate) fn no_tree(set: u32) -> FirstPlan
    ensures { result ≡ record { outcome = outcomes.NoTree; parents = replicate max_vertices no_parent; pairs = 1; cuts = set_at (replicate cut_words 0) 0 set } }
{
    let mut cuts = [0u32; CUT_WORDS];
    cuts[0] = set;
    FirstPlan {
        outcome: Outcome::NoTree,
        parents: [NO_PARENT; VERTICES],
        pairs: 1,
        cuts,
    }
}

// Where planning the matrix gave an arborescence: by the reduced costs, the cuts and the tree.
pub(crate) fn tree_plan(
    m: &[u32; CELLS],
    reduced: &[u32; CELLS],
    cuts: &[u32; CUT_WORDS],
    planned: Planned,
    n: u32,
    root: u32,
    budget: u32,
) -> FirstPlan
    requires { MatrixOk n root m.now × PlannedMatrix m.now reduced.now n root (replicate cut_words 0) cuts.now planned }
    ensures { PlansFirst (matrix_instance n root budget m.now) result }
{
    let found = planned.parents;
    let total = planned.total;
    let pairs = planned.count;
    let parents = first_tree(m, reduced, cuts, found, n, root, total, pairs);
    FirstPlan {
        outcome: outcome_at(budget, total),
        parents,
        pairs,
        cuts: *cuts,
    }
}

// By what a planning of the matrix gave.
pub fn first_plan(
    m: &[u32; CELLS],
    reduced: &[u32; CELLS],
    cuts: &[u32; CUT_WORDS],
    planned: Result<Planned, Unreached>,
    n: u32,
    root: u32,
    budget: u32,
) -> FirstPlan
    requires matrix { MatrixOk n root m.now }
    requires tree { IfOk planned (PlannedMatrix m.now reduced.now n root (replicate cut_words 0) cuts.now) }
    requires none { IfErr planned (λ e. NonePlanned m.now n root e.set) }
    ensures { PlansFirst (matrix_instance n root budget m.now) result }
{
    match planned {
        Ok(tree) => tree_plan(m, reduced, cuts, tree, n, root, budget),
        Err(unreached) => no_tree(unreached.set),
    }
}

// The plan of a matrix alone.
pub fn plan_arcs(m: &[u32; CELLS], n: u32, root: u32, budget: u32) -> FirstPlan
    requires { MatrixOk n root m.now }
    ensures { PlansFirst (matrix_instance n root budget m.now) result }
{
    let mut reduced = *m;
    let mut cuts = [0u32; CUT_WORDS];
    let planned = edmonds::plan_matrix(&mut reduced, n as usize, Vertex(root), &mut cuts);
    first_plan(m, &reduced, &cuts, planned, n, root, budget)
}
