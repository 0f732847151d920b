// Judging the arcs of a matrix: which of them an arborescence within a limit uses.
ghost use Rattle.std.specs.Prelude.{◌≡◌, true, ◌+◌, ◌*◌, ◌≤◌, ◌<◌};
ghost use Rattle.instance.specs.Limits.{no_arc, max_budget};
ghost use Rattle.instance.specs.Arborescence.{remaining};
ghost use Rattle.instance.specs.Matrix.{matrix_instance, unmarked, MatrixOk};
ghost use Rattle.usable.specs.Fitting.{FittingPlan};
ghost use Rattle.usable.specs.Judge.{JudgeableArc, Sound, Judged, JudgedHead};

use super::Fitting;
use super::forced::plan_with;
use super::table::add_tree;
use detours::detour_costs;
use instance::limits::{CELLS, NO_ARC};

// Plans with the arc, and adds the tree that is found if it fits.
fn judge_by_planning(plan: Fitting, tail: u32, head: u32, used: &mut [u8; CELLS])
    requires { MatrixOk plan.n plan.root plan.m.now × (remaining (unmarked plan.n plan.root plan.m.now) tail head ≡ true) × Sound (matrix_instance plan.n plan.root plan.limit plan.m.now) used.old }
    ensures { Judged (matrix_instance plan.entry.n plan.entry.root plan.entry.limit plan.entry.m.now) tail head used.old used.new }
{
    let Some(planned) = plan_with(plan.m, plan.n, plan.root, tail, head) else {
        return;
    };
    if planned.total <= plan.limit {
        add_tree(&planned.parents, plan.n, plan.root, used);
    }
}

// Whether a tree with the arc, its detour and the rest is within the limit, if there is a detour.
fn exchange_fits(rest: u32, weight: u32, detour: u32, limit: u32) -> bool
    requires { (rest ≤ 2 * max_budget) × (weight ≤ no_arc) }
    ensures { result ≡ true → (detour < no_arc) × (rest + weight + detour ≤ limit) }
{
    if NO_ARC <= detour {
        return false;
    }
    rest + weight + detour <= limit
}

// One arc.
fn judge_arc(
    plan: Fitting, // what the arcs are judged by
    rest: u32, // the cheapest total without the tree's arc into the head
    detour: u32, // what the tree costs more with the arc, besides its weight
    tail: u32, // the arc
    head: u32, // into this vertex
    used: &mut [u8; CELLS], // the arcs that are known to be usable
)
    requires { JudgeableArc plan.m.now plan.reduced.now plan.n plan.root plan.total rest detour tail head × Sound (matrix_instance plan.n plan.root plan.limit plan.m.now) used.now }
    ensures { Judged (matrix_instance plan.entry.n plan.entry.root plan.entry.limit plan.entry.m.now) tail head used.entry.now used.exit.now }
{
    let i = (32 * tail + head) as usize;
    if used[i] == 1 {
        return;
    }
    if tail == head {
        return;
    }
    let weight = plan.m[i];
    if weight == NO_ARC {
        return;
    }
    let limit = plan.limit;
    let least = plan.total + plan.reduced[i];
    if limit < least {
        return;
    }
    if exchange_fits(rest, weight, detour, limit) {
        used[i] = 1;
        return;
    }
    judge_by_planning(plan, tail, head, used);
}

// The arcs into one head.
pub fn judge_head(plan: Fitting, head: u32, used: &mut [u8; CELLS])
    requires { FittingPlan plan.m.now plan.reduced.now plan.parents.now plan.n plan.root plan.total plan.limit × (head < plan.n) × Sound (matrix_instance plan.n plan.root plan.limit plan.m.now) used.old }
    ensures { JudgedHead (matrix_instance plan.entry.n plan.entry.root plan.entry.limit plan.entry.m.now) plan.entry.n head used.old used.new }
{
    if head == plan.root {
        return;
    }
    let detour = detour_costs(plan.m, plan.parents, plan.n, plan.root, head);
    let tail = plan.parents[head as usize] as u32;
    let rest = plan.total - plan.m[(32 * tail + head) as usize];
    for t in 0..plan.n {
        judge_arc(plan, rest, detour[t as usize], t, head, used);
    }
}
