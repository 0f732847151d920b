// A press on a card: the card is opened, the press is made, and the card of the board that is left is written, records
// and all. The eight public functions are `press_card` at a fixed command.
ghost use Rattle.instance.specs.declared.Mark.TheVariants.{Free, Pinned, Banned};
ghost use Rattle.commands.specs.Commands.{set_mark, set_marks, set_budget, undo};
ghost use Rattle.board.specs.ModelOf.{command_of};
ghost use Rattle.feed_planner.specs.Presses.{Presses};

use crate::words::keep_written;
use board::Command;
use board::calls::execute;
use history_card::write::write_history;
use instance::{Mark, Vertex};
use planner::open_card;

// The board that a press leaves is valid, so it is written without being judged again.
fn press_card(card: &[u8], command: Command, out: &mut [u8], length: &mut usize) -> u32
    ensures { Presses card.now (command_of command) out.old out.new length.old length.new result }
{
    let mut b = match open_card(card) {
        Ok(board) => board,
        Err(refusal) => return u32::from(refusal),
    };
    if let Err(refusal) = execute(&mut b, command) {
        return u32::from(refusal);
    }
    keep_written(write_history(b, out), length)
}

pub fn feed_pin(card: &[u8], tail: u32, head: u32, out: &mut [u8], length: &mut usize) -> u32
    ensures { Presses card.now (set_mark Pinned tail head) out.old out.new length.old length.new result }
{
    press_card(
        card,
        Command::SetMark(Mark::Pinned, Vertex(tail), Vertex(head)),
        out,
        length,
    )
}

pub fn feed_ban(card: &[u8], tail: u32, head: u32, out: &mut [u8], length: &mut usize) -> u32
    ensures { Presses card.now (set_mark Banned tail head) out.old out.new length.old length.new result }
{
    press_card(
        card,
        Command::SetMark(Mark::Banned, Vertex(tail), Vertex(head)),
        out,
        length,
    )
}

pub fn feed_clear(card: &[u8], tail: u32, head: u32, out: &mut [u8], length: &mut usize) -> u32
    ensures { Presses card.now (set_mark Free tail head) out.old out.new length.old length.new result }
{
    press_card(
        card,
        Command::SetMark(Mark::Free, Vertex(tail), Vertex(head)),
        out,
        length,
    )
}

pub fn feed_pin_group(card: &[u8], tail: u32, heads: u32, out: &mut [u8], length: &mut usize) -> u32
    ensures { Presses card.now (set_marks Pinned tail heads) out.old out.new length.old length.new result }
{
    press_card(
        card,
        Command::SetMarks(Mark::Pinned, Vertex(tail), heads),
        out,
        length,
    )
}

pub fn feed_ban_group(card: &[u8], tail: u32, heads: u32, out: &mut [u8], length: &mut usize) -> u32
    ensures { Presses card.now (set_marks Banned tail heads) out.old out.new length.old length.new result }
{
    press_card(
        card,
        Command::SetMarks(Mark::Banned, Vertex(tail), heads),
        out,
        length,
    )
}

pub fn feed_clear_group(
    card: &[u8],
    tail: u32,
    heads: u32,
    out: &mut [u8],
    length: &mut usize,
) -> u32
    ensures { Presses card.now (set_marks Free tail heads) out.old out.new length.old length.new result }
{
    press_card(
        card,
        Command::SetMarks(Mark::Free, Vertex(tail), heads),
        out,
        length,
    )
}

pub fn feed_set_budget(card: &[u8], budget: u32, out: &mut [u8], length: &mut usize) -> u32
    ensures { Presses card.now (set_budget budget) out.old out.new length.old length.new result }
{
    press_card(card, Command::SetBudget(budget), out, length)
}

pub fn feed_take_back(card: &[u8], out: &mut [u8], length: &mut usize) -> u32
    ensures { Presses card.now undo out.old out.new length.old length.new result }
{
    press_card(card, Command::TakeBack, out, length)
}
