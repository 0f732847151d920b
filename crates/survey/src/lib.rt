// Planning an instance: its remaining arcs, a minimum weight arborescence with the cuts that prove its total, the first
// such arborescence, and the arcs that some arborescence uses within the larger of the budget and the cheapest total.
// No card and no board can be seen from here.
#![tactic(auto)]

pub mod first_plan; // first_plan.rt: outcome, first tree and cuts of a matrix

ghost use Rattle.std.specs.Prelude.{◌≡◌, true};
ghost use Rattle.std.proofs.Math.Option.{some};
ghost use Rattle.instance.specs.Valid.{valid_instance};
ghost use Rattle.instance.specs.Instance.{instance_with};
ghost use Rattle.instance.specs.States.{limit_at as limit_by};
ghost use Rattle.survey.specs.Survey.{Surveys};

use first_plan::{FirstPlan, no_tree, tree_plan};
use instance::Vertex;
use instance::limits::{CELLS, CUT_WORDS};
use remaining::remaining_matrix;
use usable::{Fitting, usable_arcs};

// What planning found: the plan, and 1 at each arc that some arborescence within the limit uses.
#[derive(Clone, Copy)]
pub struct Survey {
    pub plan: FirstPlan,
    pub used: [u8; CELLS],
}

// What a total may be at most for the states: the larger of the two.
fn limit_at(budget: u32, total: u32) -> u32
    ensures { result ≡ limit_by budget (some total) }
{
    if budget < total {
        return total;
    }
    budget
}

pub fn plan_instance<'a>(
    weights: &'a [u32; CELLS],
    marks: &'a [u8; CELLS],
    n: u32,
    root: u32,
    budget: u32,
) -> Survey
    requires { valid_instance (instance_with n root budget weights.now marks.now) ≡ true }
    ensures { Surveys (instance_with n root budget weights.now marks.now) result }
{
    let m = remaining_matrix(weights, marks, n, root);
    let mut reduced = m;
    let mut cuts = [0u32; CUT_WORDS];
    match edmonds::plan_matrix(&mut reduced, n as usize, Vertex(root), &mut cuts) {
        Ok(planned) => {
            let plan = tree_plan(&m, &reduced, &cuts, planned, n, root, budget);
            let total = planned.total;
            let limit = limit_at(budget, total);
            let used = usable_arcs(Fitting {
                m: &m,
                reduced: &reduced,
                parents: &planned.parents,
                n,
                root,
                total,
                limit,
            });
            Survey { plan, used }
        }
        Err(unreached) => {
            let used = [0u8; CELLS];
            Survey {
                plan: no_tree(unreached.set),
                used,
            }
        }
    }
}
