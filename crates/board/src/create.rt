// A board with no record: from the fields of an instance, and the blank one that stands for no board.
ghost use Rattle.std.specs.Prelude.{◌≡◌};
ghost use Rattle.board.specs.Create.{NewBoard, blank};

use crate::{Board, Replaced, UndoRecord};
use instance::limits::{CELLS, MAX_RECORDS};

pub fn new_board(n: u32, root: u32, budget: u32, weights: [u32; CELLS], marks: [u8; CELLS]) -> Board
    ensures { NewBoard n root budget weights marks result }
{
    let record = UndoRecord {
        replaced: Replaced::OldMark(0, 0, 0),
    };
    let records = [record; MAX_RECORDS];
    Board {
        n: n,
        root: root,
        budget: budget,
        weights: weights,
        marks: marks,
        records: records,
        count: 0,
    }
}

pub fn blank_board() -> Board
    ensures { result ≡ blank }
{
    new_board(0, 0, 0, [0; CELLS], [0; CELLS])
}
