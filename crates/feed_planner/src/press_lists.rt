// A prepared list of presses on a card: made in order up to the first refused one, and the card of what they did
// written.
ghost use Rattle.std.specs.Prelude.{◌≡◌, true, ◌≤◌, length};
ghost use Rattle.instance.specs.RefusalNumbers.{answer_of};
ghost use Rattle.commands.specs.Valid.{valid};
ghost use Rattle.board.specs.ModelOf.{model_of};
ghost use Rattle.planner.specs.Replaying.{calls};
ghost use Rattle.feed_planner.specs.PressLists.{list_pressed, left_by, numbers_short, PressesList};

use board::Board;
use board::calls::execute;
use history_card::write::write_history;
use instance::refusals::Refusal;
use planner::open_card;
use planner::replaying::{Call, call_at};

// 32: a kind that presses nothing.
const NO_SUCH_PRESS: u32 = 32;

// How many presses of a list were made, and 0 or the number of what stopped it: a refusal's, or that of a kind that
// presses nothing, which is no refusal of a call.
#[derive(Clone, Copy)]
struct Pressed {
    applied: usize,
    stopped: u32,
}

fn check_numbers(kinds: usize, firsts: usize, seconds: usize) -> Result<(), Refusal>
    ensures { answer_of result ≡ numbers_short kinds firsts seconds }
{
    if firsts < kinds {
        return Err(Refusal::BufferShort);
    }
    if seconds < kinds {
        return Err(Refusal::BufferShort);
    }
    Ok(())
}

// Makes the presses of a list on a valid board.
fn press_all(b: &mut Board, kinds: &[u8], firsts: &[u32], seconds: &[u32]) -> Pressed
    requires { (valid (model_of b.old) ≡ true) × (length kinds.now ≤ length firsts.now) × (length kinds.now ≤ length seconds.now) }
    ensures { (left_by result b.new ≡ list_pressed (calls kinds.now firsts.now seconds.now) (model_of b.old)) × (valid (model_of b.new) ≡ true) }
{
    for i in 0..kinds.len() {
        let Call::Command(command) = call_at(kinds[i], firsts[i], seconds[i]) else {
            return Pressed {
                applied: i,
                stopped: NO_SUCH_PRESS,
            };
        };
        if let Err(refusal) = execute(b, command) {
            return Pressed {
                applied: i,
                stopped: u32::from(refusal),
            };
        }
    }
    Pressed {
        applied: kinds.len(),
        stopped: 0,
    }
}

pub fn feed_press_list(
    card: &[u8],
    kinds: &[u8],
    firsts: &[u32],
    seconds: &[u32],
    out: &mut [u8],
    length: &mut usize,
    applied: &mut usize,
    stopped: &mut u32,
) -> u32
    ensures { PressesList card.now kinds.now firsts.now seconds.now out.old out.new
        length.old length.new applied.old applied.new stopped.old stopped.new result }
{
    let mut b = match open_card(card) {
        Ok(board) => board,
        Err(refusal) => return u32::from(refusal),
    };
    if let Err(refusal) = check_numbers(kinds.len(), firsts.len(), seconds.len()) {
        return u32::from(refusal);
    }
    let made = press_all(&mut b, kinds, firsts, seconds);
    match write_history(b, out) {
        Ok(written) => *length = written,
        Err(refusal) => return u32::from(refusal),
    }
    *applied = made.applied;
    *stopped = made.stopped;
    0
}
