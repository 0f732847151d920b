// What is due for a part of a list: how many calls are accepted when they are made singly, which refusal stops them and
// which board they give; and the same by the log, with what stands then.
use crate::lists;
use crate::lists::List;
use board::Board;
use harness::session::Session;
use harness::{boards, calls, histories};
use reference::call::{Call, Kind};
use reference::log::Log;
use reference::problem::Problem;

// The log after a part of a list, up to the first refused call: how many were accepted, and the refusal if there was
// one.
#[derive(Clone, Copy)]
pub struct LogResult {
    pub applied: u32,
    pub ended: Result<(), u32>,
    pub log: Log,
}

fn with_call(r: LogResult, c: Call) -> LogResult {
    match r.log.note(c) {
        Ok(log) => LogResult {
            applied: r.applied.wrapping_add(1),
            ended: Ok(()),
            log,
        },
        Err(answer) => LogResult {
            ended: Err(answer),
            ..r
        },
    }
}

// So many calls of a list from a place on, in the log.
fn by_log(start: Log, list: List, from: u32, count: u32) -> LogResult {
    let mut r = LogResult {
        applied: 0,
        ended: Ok(()),
        log: start,
    };
    for k in 0..count {
        r = with_call(r, lists::nth(list, from.wrapping_add(k)));
        if r.ended.is_err() {
            return r;
        }
    }
    r
}

// The board after single calls, up to the first refused one, and the one before the last accepted one; how many were
// accepted, how many of these were take-backs and groups, and the refusal if there was one.
#[derive(Clone, Copy)]
pub struct Singles {
    pub board: Board,
    pub before: Board,
    pub applied: u32,
    pub take_backs: u32,
    pub groups: u32,
    pub ended: Result<(), u32>,
}

fn with_single(s: Singles, c: Call) -> Singles {
    let before = s.board;
    let made = calls::made(before, c);
    let after = made.board;
    if made.answer != 0 {
        return Singles {
            ended: Err(made.answer),
            ..s
        };
    }
    Singles {
        board: after,
        before,
        applied: s.applied.wrapping_add(1),
        take_backs: s
            .take_backs
            .wrapping_add(u32::from(c.kind == Kind::TakeBack)),
        groups: s.groups.wrapping_add(u32::from(c.kind.is_group())),
        ended: Ok(()),
    }
}

// So many calls of a list from a place on, made singly.
fn singly(b: Board, list: List, from: u32, count: u32) -> Singles {
    let mut s = Singles {
        board: b,
        before: b,
        applied: 0,
        take_backs: 0,
        groups: 0,
        ended: Ok(()),
    };
    for k in 0..count {
        s = with_single(s, lists::nth(list, from.wrapping_add(k)));
        if s.ended.is_err() {
            return s;
        }
    }
    s
}

// Both, and the card's instance under what the log says then.
#[derive(Clone, Copy)]
pub struct Due {
    pub singles: Singles,
    pub by_log: LogResult,
    pub now: Problem,
}

pub fn due_for(s: Session, list: List, from: u32, count: u32) -> Due {
    let board = s.board;
    let r = by_log(s.log, list, from, count);
    Due {
        singles: singly(board, list, from, count),
        by_log: r,
        now: r.log.problem_now(),
    }
}

// On a board that is none of a session: as if it were opened from a card with its marks, its budget and its records
// (02, A8).
pub fn due_on(b: Board, list: List, from: u32, count: u32) -> Due {
    let own = Session {
        board: b,
        log: Log::opened(boards::problem_of(b), histories::of_board(b)),
    };
    due_for(own, list, from, count)
}

// The same with another board of the single calls.
pub fn with_single_board(due: Due, b: Board) -> Due {
    let mut singles = due.singles;
    singles.board = b;
    let mut other = due;
    other.singles = singles;
    other
}

// Where the session has come to with the board that the planner gave.
pub fn session_after(s: Session, due: Due, b: Board) -> Session {
    Session {
        board: b,
        log: due.by_log.log,
    }
}

// The place behind the calls that were accepted and the refused one, if there is one.
pub fn place_behind(from: u32, due: Due) -> u32 {
    let r = due.by_log;
    from.wrapping_add(r.applied)
        .wrapping_add(u32::from(r.ended.is_err()))
}
