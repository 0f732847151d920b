// What proves the state of an arc: the pinned arc that keeps it out; the plan with this arc as the only one into its
// head; the plan without it. No card and no board can be seen from here.
#![tactic(auto)]

ghost use Rattle.std.specs.Prelude.{◌≡◌, true, ◌≤◌, ◌<◌, IfSome, IfNone};
ghost use Rattle.instance.specs.Limits.{max_vertices};
ghost use Rattle.instance.specs.Instance.{instance_with, without_budget};
ghost use Rattle.instance.specs.Valid.{valid_instance};
ghost use Rattle.instance.specs.StateNumbers.{state_number};
ghost use Rattle.survey.specs.FirstPlan.{PlansFirst};
ghost use Rattle.witness.specs.Witness.{is_rival, rival as first-rival, forced_instance, deleted_instance, state_by as state-of, beaten, unbeaten};

use instance::limits::{CELLS, NO_ARC};
use instance::states::State;
use instance::{Outcome, Vertex};
use remaining::pins::is_pinned;
use remaining::remaining_matrix;
use survey::first_plan::{FirstPlan, plan_arcs};
use usable::forced::force_arc;

// Whether the arc from `other` into the head is another one and pinned.
fn is_rival_tail<'a>(
    weights: &'a [u32; CELLS],
    marks: &'a [u8; CELLS],
    n: u32,
    root: u32,
    tail: u32,
    head: u32,
    other: u32,
) -> bool
    requires { n ≤ max_vertices }
    ensures { result ≡ is_rival (without_budget n root weights.now marks.now) tail head other }
{
    if other == tail {
        return false;
    }
    is_pinned(weights, marks, n, root, other, head)
}

// The smallest other tail of a pinned arc into the head, if there is one.
pub fn rival<'a>(
    weights: &'a [u32; CELLS],
    marks: &'a [u8; CELLS],
    n: u32,
    root: u32,
    tail: u32,
    head: u32,
) -> Option<Vertex>
    requires { n ≤ max_vertices }
    ensures some { IfSome result (λ g. (g.0 ≡ first-rival (without_budget n root weights.now marks.now) tail head) × (g.0 < n)) }
    ensures none { IfNone result (first-rival (without_budget n root weights.now marks.now) tail head ≡ n) }
{
    for other in 0..n {
        if is_rival_tail(weights, marks, n, root, tail, head, other) {
            return Some(Vertex(other));
        }
    }
    None
}

// The plan with the arc as the only one into its head.
pub fn plan_forced<'a>(
    weights: &'a [u32; CELLS],
    marks: &'a [u8; CELLS],
    n: u32,
    root: u32,
    budget: u32,
    tail: u32,
    head: u32,
) -> FirstPlan
    requires { (valid_instance (instance_with n root budget weights.now marks.now) ≡ true) × (head < max_vertices) }
    ensures { PlansFirst (forced_instance (instance_with n root budget weights.now marks.now) tail head) result }
{
    let mut m = remaining_matrix(weights, marks, n, root);
    force_arc(&mut m, n, tail, head);
    plan_arcs(&m, n, root, budget)
}

// The plan without the arc.
pub fn plan_deleted<'a>(
    weights: &'a [u32; CELLS],
    marks: &'a [u8; CELLS],
    n: u32,
    root: u32,
    budget: u32,
    tail: u32,
    head: u32,
) -> FirstPlan
    requires { (valid_instance (instance_with n root budget weights.now marks.now) ≡ true) × (tail < max_vertices) × (head < max_vertices) }
    ensures { PlansFirst (deleted_instance (instance_with n root budget weights.now marks.now) tail head) result }
{
    let mut m = remaining_matrix(weights, marks, n, root);
    m[(32 * tail + head) as usize] = NO_ARC;
    plan_arcs(&m, n, root, budget)
}

// Whether a total is above the budget and the other outcome's is smaller.
fn is_beaten(budget: u32, total: u32, other: Outcome) -> bool
    ensures { result ≡ beaten budget total other }
{
    if total <= budget {
        return false;
    }
    match other {
        Outcome::Plan(least) | Outcome::Over(least) => least < total,
        Outcome::NoTree => false,
    }
}

// Whether an outcome has a tree, and its total is not beaten.
fn is_unbeaten(budget: u32, own: Outcome, other: Outcome) -> bool
    ensures { result ≡ unbeaten budget own other }
{
    match own {
        Outcome::Plan(total) | Outcome::Over(total) => !is_beaten(budget, total, other),
        Outcome::NoTree => false,
    }
}

// The state of an arc by both outcomes: with it alone into its head, and without it.
pub fn state_by(budget: u32, forced: Outcome, deleted: Outcome) -> State
    ensures { state_number result ≡ state-of budget forced deleted }
{
    if !is_unbeaten(budget, forced, deleted) {
        return State::Excluded;
    }
    if is_unbeaten(budget, deleted, forced) {
        return State::Optional;
    }
    State::Mandatory
}
