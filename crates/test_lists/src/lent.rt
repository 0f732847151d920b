// A list of presses lent to the planner: as many as are asked for of an array of the greatest length. Every other
// function hands the array over by value.
ghost use Rattle.std.specs.Prelude.{◌≤◌};

use board::Board;
use harness::calls;
use planner::{Press, press_list};

// The longest list that is lent.
pub const LONGEST: usize = 100000;

// How many presses were applied, 0 or the number of the refusal that stopped the list, and the board that is left.
#[derive(Clone, Copy)]
pub struct ListAnswered {
    pub applied: usize,
    pub answer: u32,
    pub board: Board,
}

// How many presses of the array are lent.
fn lent_of(count: usize) -> usize
    ensures { result ≤ 100000 }
{
    if LONGEST <= count {
        return LONGEST;
    }
    count
}

// Lends the first so many presses of an array, and a copy of the board.
pub fn pressed(before: Board, list: [Press; LONGEST], count: usize) -> ListAnswered {
    let k = lent_of(count);
    let mut board = before;
    let pressed = press_list(&mut board, &list[..k]);
    ListAnswered {
        applied: pressed.applied,
        answer: calls::number(pressed.result),
        board,
    }
}
