// From a card to its text.
ghost use Rattle.std.specs.Prelude.{◌≡◌, true, ◌≤◌, length};
ghost use Rattle.commands.specs.Valid.{valid};
ghost use Rattle.board.specs.ModelOf.{model_of, instance_of};
ghost use Rattle.text.specs.Buffer.{Filled};
ghost use Rattle.report_text.specs.Whole.{report_text, max_text};
ghost use Rattle.report.specs.Reports.{Reports};

use crate::Reported;
use board::Board;
use instance::limits::{CELLS, CUT_WORDS, VERTICES};
use instance::refusals::BUFFER_SHORT;
use planner::{View, look, open_card};
use report_text::{MAX_TEXT, write_refusal, write_report};

// The text of a valid board, and its length.
fn report_board(b: &Board, out: &mut [u8]) -> usize
    requires b_value { valid (model_of b.now) ≡ true }
    requires max_text_in_bounds { max_text ≤ length out.old }
    ensures { Filled (report_text (instance_of b.now)) out.old out.new result }
{
    let mut parents = [0u8; VERTICES];
    let mut states = [0u8; CELLS];
    let mut cuts = [0u32; CUT_WORDS];
    let view = look(b, &mut parents, &mut states, &mut cuts);
    // a valid board is not refused, and the buffers are long enough
    let View::Shown(outcome, _) = view else {
        return 0;
    };
    write_report(
        &b.weights, &parents, &states, b.n, b.root, b.budget, outcome, out,
    )
}

// Opens a card, looks at it and writes its text, or the line of its refusal, from the buffer's beginning on. A buffer
// of less than MAX_TEXT bytes gets 14 and is left as it was.
pub fn report(card: &[u8], out: &mut [u8]) -> Reported
    ensures { Reports card.now out.old out.new result }
{
    if out.len() < MAX_TEXT {
        return Reported {
            answer: BUFFER_SHORT,
            length: 0,
        };
    }
    match open_card(card) {
        Ok(board) => {
            let length = report_board(&board, out);
            Reported { answer: 0, length }
        }
        Err(refusal) => {
            let answer = u32::from(refusal);
            let length = write_refusal(answer, out);
            Reported { answer, length }
        }
    }
}
