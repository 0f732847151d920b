// A look at a board: what was found by planning is copied into the caller's three buffers.
ghost use Rattle.std.specs.Prelude.{◌≡◌, true, ◌≤◌};
ghost use Rattle.instance.specs.Limits.{max_vertices};
ghost use Rattle.commands.specs.Valid.{valid};
ghost use Rattle.board.specs.ModelOf.{model_of};
ghost use Rattle.planner.specs.Looking.{buffers, too_short, Looks};

use crate::View;
use crate::displaying::display;
use board::Board;
use board::valid::is_valid;
use instance::limits::CUT_WORDS;
use instance::refusals::{BUFFER_SHORT, INVALID_BOARD};
use survey::plan_instance;

pub fn is_too_short(n: u32, parents: usize, states: usize, cuts: usize) -> bool
    requires { n ≤ max_vertices }
    ensures { result ≡ too_short n parents states cuts }
{
    if parents < (n as usize) {
        return true;
    }
    if states < ((n * n) as usize) {
        return true;
    }
    cuts < CUT_WORDS
}

// A look at a valid board.
pub fn look_valid(b: &Board, parents: &mut [u8], states: &mut [u8], cuts: &mut [u32]) -> View
    requires { valid (model_of b.now) ≡ true }
    ensures { Looks b.now (buffers parents.old states.old cuts.old) (buffers parents.new states.new cuts.new) result }
{
    if is_too_short(b.n, parents.len(), states.len(), cuts.len()) {
        return View::Refused(BUFFER_SHORT);
    }
    let surveyed = plan_instance(&b.weights, &b.marks, b.n, b.root, b.budget);
    let outcome = surveyed.plan.outcome;
    let pairs = surveyed.plan.pairs;
    display(surveyed, &b.weights, b.n, b.root, parents, states, cuts);
    View::Shown(outcome, pairs)
}

pub fn look(b: &Board, parents: &mut [u8], states: &mut [u8], cuts: &mut [u32]) -> View
    ensures { Looks b.now (buffers parents.old states.old cuts.old) (buffers parents.new states.new cuts.new) result }
{
    if !is_valid(b) {
        return View::Refused(INVALID_BOARD);
    }
    look_valid(b, parents, states, cuts)
}
