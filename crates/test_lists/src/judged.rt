// Whether what the planner gave for a list is what is due; and the same result with something else in it.
use crate::dues::Due;
use crate::lent::ListAnswered;
use board::Board;
use harness::boards;
use reference::refusals::{HISTORY_FULL, number_of};

// Whether as many presses were applied as the log accepts, with its answer, and the board has the marks, the budget and
// the number of records that the log says.
fn log_right(a: ListAnswered, due: Due) -> bool {
    let r = due.by_log;
    let b = a.board;
    a.applied == r.applied as usize
        && a.answer == number_of(r.ended)
        && b.count == r.log.standing() as usize
        && boards::alike_problems(&due.now, &boards::problem_of(b))
}

// Whether as many presses were applied as were accepted singly, with the same answer, and the board is the one that the
// single calls gave, in every field and record place; and all of it is right by the log.
pub fn is_right(a: ListAnswered, due: Due) -> bool {
    let singles = due.singles;
    let single = singles.board;
    let b = a.board;
    a.applied == singles.applied as usize
        && a.answer == number_of(singles.ended)
        && boards::identical(single, b)
        && log_right(a, due)
}

// The result with other numbers: one press applied more, one less, the next answer, 0 for a refusal or 12 for 0.
pub const NUMBERS: u32 = 4;

pub fn with_number(a: ListAnswered, kind: u32) -> ListAnswered {
    let mut w = a;
    match kind {
        0 => w.applied = a.applied.wrapping_add(1),
        1 => w.applied = a.applied.wrapping_sub(1),
        2 => w.answer = a.answer.wrapping_add(1),
        _ => w.answer = if a.answer == 0 { HISTORY_FULL } else { 0 },
    }
    w
}

pub fn with_board(a: ListAnswered, b: Board) -> ListAnswered {
    ListAnswered {
        applied: a.applied,
        answer: a.answer,
        board: b,
    }
}
