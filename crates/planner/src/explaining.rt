// Why a link is closed, open or sure: who banned it, which pin keeps it out, or the plan with it as the only one into
// its position; and the plan without it. What was planned is copied into the caller's two buffers.
ghost use Rattle.std.specs.Prelude.{◌≡◌, length};
ghost use Rattle.instance.specs.RefusalNumbers.{answer_of};
ghost use Rattle.board.specs.ModelOf.{model_of};
ghost use Rattle.planner.specs.Explaining.{tree_buffers, explain_refusal, ExplainsAt, Explains, PlansWithout};

use crate::displaying::display_plan;
use crate::{Reason, View};
use board::Board;
use board::setters::setter;
use board::valid::is_valid;
use checks::arc::is_arc;
use instance::Vertex;
use instance::limits::{BANNED, CUT_WORDS};
use instance::refusals::Refusal;
use witness::{plan_deleted, plan_forced, rival};

// Refuses a call about an arc, in this order; the last two numbers say how long the buffers are.
fn check_call(b: &Board, tail: u32, head: u32, parents: usize, cuts: usize) -> Result<(), Refusal>
    ensures { answer_of result ≡ explain_refusal (model_of b.now) tail head parents cuts }
{
    if !is_valid(b) {
        return Err(Refusal::InvalidBoard);
    }
    if b.n <= tail {
        return Err(Refusal::NoVertex);
    }
    if b.n <= head {
        return Err(Refusal::NoVertex);
    }
    if !is_arc(&b.weights, b.n, b.root, tail, head) {
        return Err(Refusal::NoSuchArc);
    }
    if parents < (b.n as usize) {
        return Err(Refusal::BufferShort);
    }
    if cuts < CUT_WORDS {
        return Err(Refusal::BufferShort);
    }
    Ok(())
}

// Why, where nothing refuses the call.
fn explain(b: &Board, tail: u32, head: u32, parents: &mut [u8], cuts: &mut [u32]) -> Reason
    requires { explain_refusal (model_of b.now) tail head (length parents.old) (length cuts.old) ≡ 0 }
    ensures { ExplainsAt 0 (model_of b.now) tail head (tree_buffers parents.old cuts.old) (tree_buffers parents.new cuts.new) result }
{
    if b.marks[(32 * tail + head) as usize] == BANNED {
        return Reason::Banned(setter(b, tail, head));
    }
    if let Some(other) = rival(&b.weights, &b.marks, b.n, b.root, tail, head) {
        return Reason::Rival(other, setter(b, other.0, head));
    }
    let plan = plan_forced(&b.weights, &b.marks, b.n, b.root, b.budget, tail, head);
    let outcome = plan.outcome;
    let pairs = plan.pairs;
    display_plan(plan, b.n, parents, cuts);
    Reason::Priced(outcome, pairs)
}

// Why the arc is closed, or what decides that.
pub fn why(b: &Board, tail: Vertex, head: Vertex, parents: &mut [u8], cuts: &mut [u32]) -> Reason
    ensures { Explains b.now tail.0 head.0 (tree_buffers parents.old cuts.old) (tree_buffers parents.new cuts.new) result }
{
    if let Err(refusal) = check_call(b, tail.0, head.0, parents.len(), cuts.len()) {
        return Reason::Refused(u32::from(refusal));
    }
    explain(b, tail.0, head.0, parents, cuts)
}

// The plan of the remaining arcs without this one.
pub fn plan_without(
    b: &Board,
    tail: Vertex,
    head: Vertex,
    parents: &mut [u8],
    cuts: &mut [u32],
) -> View
    ensures { PlansWithout b.now tail.0 head.0 (tree_buffers parents.old cuts.old) (tree_buffers parents.new cuts.new) result }
{
    if let Err(refusal) = check_call(b, tail.0, head.0, parents.len(), cuts.len()) {
        return View::Refused(u32::from(refusal));
    }
    let plan = plan_deleted(&b.weights, &b.marks, b.n, b.root, b.budget, tail.0, head.0);
    let outcome = plan.outcome;
    let pairs = plan.pairs;
    display_plan(plan, b.n, parents, cuts);
    View::Shown(outcome, pairs)
}
