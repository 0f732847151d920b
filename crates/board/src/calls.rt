// Pin, ban and clear, of one arc and of several, set budget and undo. `execute` has worked out what the command comes
// to, the board judged first, and puts that on the board; the eight public calls are `execute` at a fixed command. Each
// is lent the board, and where it is refused leaves it as it was.
ghost use Rattle.std.specs.Prelude.{◌≡◌, length};
ghost use Rattle.instance.specs.Limits.{cells};
ghost use Rattle.instance.specs.declared.Mark.TheVariants.{Free, Pinned, Banned};
ghost use Rattle.commands.specs.Commands as model;
ghost use Rattle.commands.specs.Commands.{answered};
ghost use Rattle.board.specs.ModelOf.{model_of, command_of};
ghost use Rattle.board.specs.Calls.{Answers, answered_as};
ghost use Rattle.board.specs.Changes.{Within, budget_put, marks_put};

use crate::changes::{Change, judged_change};
use crate::{Board, Command, Replaced, UndoRecord};
use heads::marks::put_marks;
use instance::limits::CELLS;
use instance::refusals::Refusal;
use instance::{Mark, Vertex};

// The budget where `new` was put.
fn put_budget(new: Replaced, budget: u32) -> u32
    ensures { result ≡ budget_put new budget }
{
    match new {
        Replaced::OldMark(_, _, _) => budget,
        Replaced::OldBudget(budget) => budget,
        Replaced::OldMarks(_, _, _) => budget,
    }
}

// Puts the marks of `new`, if it has any.
fn put_new_marks(new: Replaced, marks: &mut [u8; CELLS])
    requires { Within new × (length marks.old ≡ cells) }
    ensures { marks.new ≡ marks_put new marks.old }
{
    match new {
        Replaced::OldMark(tail, head, mark) => {
            let i = 32 * (tail as usize) + (head as usize);
            marks[i] = mark;
        }
        Replaced::OldBudget(_) => {}
        Replaced::OldMarks(tail, heads, new) => {
            put_marks(tail as u32, heads, new, marks);
        }
    }
}

// Any command on any board: 15 where the board is invalid, whatever the command. Refused, the board stays as it was.
pub fn execute(b: &mut Board, command: Command) -> Result<(), Refusal>
    ensures { Answers (answered (command_of command) (model_of b.old)) b.old (answered_as result b.new) }
{
    match judged_change(b, command)? {
        Change::Records(old, new) => {
            b.records[b.count] = UndoRecord { replaced: old };
            b.count += 1;
            b.budget = put_budget(new, b.budget);
            put_new_marks(new, &mut b.marks);
        }
        Change::TakesBack(new) => {
            b.count -= 1;
            b.budget = put_budget(new, b.budget);
            put_new_marks(new, &mut b.marks);
        }
    }
    Ok(())
}

pub fn pin(b: &mut Board, tail: Vertex, head: Vertex) -> Result<(), Refusal>
    ensures { Answers (answered (model.set_mark Pinned tail.0 head.0) (model_of b.old)) b.old (answered_as result b.new) }
{
    execute(b, Command::SetMark(Mark::Pinned, tail, head))
}

pub fn ban(b: &mut Board, tail: Vertex, head: Vertex) -> Result<(), Refusal>
    ensures { Answers (answered (model.set_mark Banned tail.0 head.0) (model_of b.old)) b.old (answered_as result b.new) }
{
    execute(b, Command::SetMark(Mark::Banned, tail, head))
}

pub fn clear(b: &mut Board, tail: Vertex, head: Vertex) -> Result<(), Refusal>
    ensures { Answers (answered (model.set_mark Free tail.0 head.0) (model_of b.old)) b.old (answered_as result b.new) }
{
    execute(b, Command::SetMark(Mark::Free, tail, head))
}

pub fn pin_group(b: &mut Board, tail: Vertex, heads: u32) -> Result<(), Refusal>
    ensures { Answers (answered (model.set_marks Pinned tail.0 heads) (model_of b.old)) b.old (answered_as result b.new) }
{
    execute(b, Command::SetMarks(Mark::Pinned, tail, heads))
}

pub fn ban_group(b: &mut Board, tail: Vertex, heads: u32) -> Result<(), Refusal>
    ensures { Answers (answered (model.set_marks Banned tail.0 heads) (model_of b.old)) b.old (answered_as result b.new) }
{
    execute(b, Command::SetMarks(Mark::Banned, tail, heads))
}

pub fn clear_group(b: &mut Board, tail: Vertex, heads: u32) -> Result<(), Refusal>
    ensures { Answers (answered (model.set_marks Free tail.0 heads) (model_of b.old)) b.old (answered_as result b.new) }
{
    execute(b, Command::SetMarks(Mark::Free, tail, heads))
}

pub fn set_budget(b: &mut Board, budget: u32) -> Result<(), Refusal>
    ensures { Answers (answered (model.set_budget budget) (model_of b.old)) b.old (answered_as result b.new) }
{
    execute(b, Command::SetBudget(budget))
}

pub fn take_back(b: &mut Board) -> Result<(), Refusal>
    ensures { Answers (answered model.undo (model_of b.old)) b.old (answered_as result b.new) }
{
    execute(b, Command::TakeBack)
}
