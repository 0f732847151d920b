// What a command comes to on a board: a refusal, or what it puts on the board and what is recorded. The board is read
// alone here, and put on where it is known what changes on it.
ghost use Rattle.std.specs.Prelude.{◌≡◌, true, false, ◌&&◌, not, ◌≤◌, ltb, leb, eqb, length};
ghost use Rattle.instance.specs.Limits.{max_vertices, max_records, cells};
ghost use Rattle.instance.specs.RefusalNumbers.{answer_of};
ghost use Rattle.instance.specs.Matrix.{unmarked};
ghost use Rattle.commands.specs.Heads.{heads_below};
ghost use Rattle.commands.specs.Valid.{valid};
ghost use Rattle.commands.specs.Commands.{arc_refusal, mark_refusal, applied, answered};
ghost use Rattle.board.specs.ModelOf.{model_of, command_of};
ghost use Rattle.board.specs.Changes.{outcome_of, mark_change, marks_change, budget_change, undo_change, Gives};

use crate::valid::is_valid;
use crate::{Board, Command, Replaced};
use checks::arc::is_arc;
use checks::sets::is_below;
use heads::arcs::arc_heads;
use heads::marks::read_marks;
use instance::Mark;
use instance::limits::{CELLS, MAX_BUDGET, MAX_RECORDS};
use instance::refusals::Refusal;

// What is recorded, as it was, and what is put in its place; or what undo puts back. What is put has the form of a
// record: of one arc, of several or of the budget.
#[derive(Clone, Copy)]
pub enum Change {
    Records(Replaced, Replaced),
    TakesBack(Replaced),
}

// The mark 1 at every head, two bits a head; so times a mark, that mark at every head.
const EVERY_HEAD: u64 = 0x5555555555555555;

// Refuses a command whose vertices are all below n: there is no arc, or no room for a record.
fn check_arc(missing: bool, count: usize) -> Result<(), Refusal>
    ensures { answer_of result ≡ arc_refusal false missing (leb max_records count) }
{
    if missing {
        return Err(Refusal::NoSuchArc);
    }
    if MAX_RECORDS <= count {
        return Err(Refusal::HistoryFull);
    }
    Ok(())
}

// Refuses a mark on a valid board. `is_arc` is false where a vertex is not below n, so it can be asked first.
fn check_mark(
    weights: &[u32; CELLS],
    n: u32,
    root: u32,
    count: usize,
    tail: u32,
    head: u32,
) -> Result<(), Refusal>
    requires { (n ≤ max_vertices) × (length weights.now ≡ cells) }
    ensures { answer_of result ≡ mark_refusal (unmarked n root weights.now) count tail head }
{
    let arc = is_arc(weights, n, root, tail, head);
    if n <= tail || n <= head {
        return Err(Refusal::NoVertex);
    }
    check_arc(!arc, count)
}

// Refuses several marks on a valid board; `arcs` are the heads that have an arc.
fn check_marks(n: u32, count: usize, tail: u32, heads: u32, arcs: u32) -> Result<(), Refusal>
    requires { n ≤ max_vertices }
    ensures { answer_of result ≡ arc_refusal (not (ltb tail n && heads_below n heads)) (eqb arcs 0) (leb max_records count) }
{
    if n <= tail {
        return Err(Refusal::NoVertex);
    }
    if !is_below(heads, n) {
        return Err(Refusal::NoVertex);
    }
    check_arc(arcs == 0, count)
}

// A mark on an arc, over any earlier one.
fn mark_change(b: &Board, mark: Mark, tail: u32, head: u32) -> Result<Change, Refusal>
    requires { b.now.n ≤ max_vertices }
    ensures { outcome_of result ≡ mark_change b.now.n b.now.root b.now.weights b.now.marks b.now.count mark tail head }
{
    check_mark(&b.weights, b.n, b.root, b.count, tail, head)?;
    let old = b.marks[(32 * tail + head) as usize];
    let t = tail as u8;
    let h = head as u8;
    Ok(Change::Records(
        Replaced::OldMark(t, h, old),
        Replaced::OldMark(t, h, u8::from(mark)),
    ))
}

// The marks of several arcs of one tail, over any earlier ones; the heads that have no arc are skipped.
fn marks_change(b: &Board, mark: Mark, tail: u32, heads: u32) -> Result<Change, Refusal>
    requires { valid (model_of b.now) ≡ true }
    ensures { outcome_of result ≡ marks_change b.now.n b.now.root b.now.weights b.now.marks b.now.count mark tail heads }
{
    let arcs = arc_heads(&b.weights, b.n, b.root, tail, heads);
    check_marks(b.n, b.count, tail, heads, arcs)?;
    let old = read_marks(&b.marks, tail, arcs);
    let new = EVERY_HEAD * u64::from(u8::from(mark));
    let t = tail as u8;
    Ok(Change::Records(
        Replaced::OldMarks(t, arcs, old),
        Replaced::OldMarks(t, arcs, new),
    ))
}

// The budget; `at` is the place of one record more.
fn budget_change(at: usize, old: u32, new: u32) -> Result<Change, Refusal>
    ensures { outcome_of result ≡ budget_change at old new }
{
    if MAX_BUDGET < new {
        return Err(Refusal::BadBudget);
    }
    if MAX_RECORDS <= at {
        return Err(Refusal::HistoryFull);
    }
    Ok(Change::Records(Replaced::OldBudget(old), Replaced::OldBudget(new)))
}

// The latest record taken back.
fn undo_change(b: &Board) -> Result<Change, Refusal>
    requires { b.now.count ≤ max_records }
    ensures { outcome_of result ≡ undo_change b.now.records b.now.count }
{
    if b.count == 0 {
        return Err(Refusal::HistoryEmpty);
    }
    Ok(Change::TakesBack(b.records[b.count - 1].replaced))
}

// What a command comes to on a valid board.
fn change_of(b: &Board, command: Command) -> Result<Change, Refusal>
    requires { valid (model_of b.now) ≡ true }
    ensures { Gives (applied (command_of command) (model_of b.now)) b.now (outcome_of result) }
{
    match command {
        Command::SetMark(mark, tail, head) => mark_change(b, mark, tail.0, head.0),
        Command::SetMarks(mark, tail, heads) => marks_change(b, mark, tail.0, heads),
        Command::SetBudget(new) => budget_change(b.count, b.budget, new),
        Command::TakeBack => undo_change(b),
    }
}

// What a command comes to on any board: 15 where that is invalid, whatever the command.
pub fn judged_change(b: &Board, command: Command) -> Result<Change, Refusal>
    ensures { Gives (answered (command_of command) (model_of b.now)) b.now (outcome_of result) }
{
    if !is_valid(b) {
        return Err(Refusal::InvalidBoard);
    }
    change_of(b, command)
}
