// The lines of an answer, one after the other. Each function says whether all of it could be written.
ghost use Rattle.std.specs.Prelude.{◌≡◌, true, ◌*◌, ◌≤◌, ◌<◌, length};
ghost use Rattle.instance.specs.Limits.{max_vertices, cells, max_cuts};
ghost use Rattle.commands.specs.Valid.{valid};
ghost use Rattle.board.specs.ModelOf.{model_of};

use board::Board;
use card_input::STDOUT;
use instance::Outcome;
use instance::limits::{CELLS, CUT_WORDS, VERTICES};
use instance::states::State;
use report_text::{listed_weight, shows_tree};
use why_text::{Line, MAX_LINE, first_line, outcome_total, write_line};
use witness::state_by;

// A plan as the planner shows it: its outcome, how many pairs of cuts there are, and the two buffers.
#[derive(Clone, Copy)]
pub struct Planned {
    pub outcome: Outcome,
    pub pairs: u32,
    pub parents: [u8; VERTICES],
    pub cuts: [u32; CUT_WORDS],
}

pub fn print_line(line: Line) -> bool {
    let mut text = [0u8; MAX_LINE];
    let end = write_line(line, &mut text);
    io::write_all(STDOUT, &text[..end])
}

// The arc into v, unless v is the root.
fn print_feed(weights: &[u32; CELLS], parents: &[u8], root: u32, v: u32) -> bool
    requires { (length weights.now ≡ cells) × (v < length parents.now) }
{
    if v == root {
        return true;
    }
    let tail = parents[v as usize];
    let weight = listed_weight(weights, tail, v);
    print_line(Line::Feed {
        head: v,
        tail: tail as u32,
        weight,
    })
}

fn print_feeds(weights: &[u32; CELLS], parents: &[u8], n: u32, root: u32) -> bool
    requires { (length weights.now ≡ cells) × (n ≤ length parents.now) }
{
    for v in 0..n {
        if !print_feed(weights, parents, root, v) {
            return false;
        }
    }
    true
}

fn print_cuts(cuts: &[u32], pairs: u32) -> bool
    requires { 2 * pairs ≤ length cuts.now }
{
    for k in 0..pairs as usize {
        let set = cuts[2 * k];
        let value = cuts[2 * k + 1];
        if !print_line(Line::Cut { set, value }) {
            return false;
        }
    }
    true
}

// The tree, where there is one, and the cuts that prove it; or the set that no arc enters.
fn print_plan(weights: &[u32; CELLS], n: u32, root: u32, plan: Planned) -> bool
    requires { (length weights.now ≡ cells) × (n ≤ max_vertices) × (plan.pairs ≤ max_cuts) }
{
    let outcome = plan.outcome;
    if shows_tree(outcome) {
        if !print_feeds(weights, &plan.parents, n, root) {
            return false;
        }
    }
    print_cuts(&plan.cuts, plan.pairs)
}

// Two plans, and the line between them.
fn print_plans(
    weights: &[u32; CELLS],
    n: u32,
    root: u32,
    first: Planned,
    line: Line,
    second: Planned,
) -> bool
    requires { (length weights.now ≡ cells) × (n ≤ max_vertices) × (first.pairs ≤ max_cuts) × (second.pairs ≤ max_cuts) }
{
    if !print_plan(weights, n, root, first) {
        return false;
    }
    if !print_line(line) {
        return false;
    }
    print_plan(weights, n, root, second)
}

// The state of an arc, and the plans that prove it. forced: the plan with the arc as the only one into its head.
// deleted: the plan without it.
pub fn print_witnesses(b: Board, tail: u32, head: u32, forced: Planned, deleted: Planned) -> bool
    requires { (valid (model_of b) ≡ true) × (forced.pairs ≤ max_cuts) × (deleted.pairs ≤ max_cuts) }
{
    let n = b.n;
    let root = b.root;
    let budget = b.budget;
    let with = forced.outcome;
    let without = deleted.outcome;
    let state = state_by(budget, with, without);
    if !print_line(first_line(with, without, tail, head, budget, u8::from(state))) {
        return false;
    }
    if !shows_tree(with) {
        return print_plan(&b.weights, n, root, forced);
    }
    if state == State::Mandatory {
        let line = Line::With(outcome_total(with));
        return print_plans(&b.weights, n, root, deleted, line, forced);
    }
    // an excluded arc too: that there is a cheaper tree is part of why
    let line = Line::Without(outcome_total(without));
    print_plans(&b.weights, n, root, forced, line, deleted)
}
