// A board opened from a card, of either kind, beside the log of the calls that were made on it.
use crate::calls::CardOut;
use crate::replies::Reply;
use crate::{buffers, calls, history_calls, replies, verdict};
use board::Board;
use reference::call::{Call, Kind};
use reference::card::{CARD_ROOM, Card};
use reference::history::History;
use reference::log::Log;
use reference::problem::Problem;
use reference::refusals::number_of;
use reference::{access, history_card};

#[derive(Clone, Copy)]
pub struct Session {
    pub board: Board,
    pub log: Log,
}

// What a call gave: the board's reply, the log's answer, and where the session has come to.
#[derive(Clone, Copy)]
pub struct Called {
    pub reply: Reply,
    pub log_answer: u32,
    pub session: Session,
}

// A session on a card that opens; where it does not, every call after is refused with 15 and reported.
pub fn opened(p: Problem) -> Session {
    opened_from(reference::card::build(p), p, History::empty())
}

// The same on a card with records.
pub fn opened_with(p: Problem, h: History) -> Session {
    opened_from(history_card::build(p, h), p, h)
}

// The same on a card that says that.
pub fn opened_from(c: Card, p: Problem, h: History) -> Session {
    let o = calls::open(c);
    let board = o.board;
    Session {
        board,
        log: Log::opened(p, h),
    }
}

// The card's instance, with its sizes and prices; its marks and its budget are those of now, where nothing stands.
pub fn card_of(s: Session) -> Problem {
    s.log.card
}

// A call on the board, and in the log.
pub fn with_call(s: Session, c: Call) -> Called {
    let board = s.board;
    let made = calls::made(board, c);
    let noted = s.log.note(c);
    let board_after = made.board;
    let session = Session {
        board: board_after,
        log: noted.unwrap_or(s.log),
    };
    Called {
        reply: replies::of_call(board, made),
        log_answer: number_of(noted),
        session,
    }
}

// The card's instance under what the log says.
pub fn problem_now(s: Session) -> Problem {
    s.log.problem_now()
}

// Whether a look at the board shows that.
pub fn look_right(s: Session) -> bool {
    let board = s.board;
    verdict::judged(problem_now(s), calls::look(board)).is_ok()
}

// Whether a written card is that card, and no other byte was touched.
pub fn is_written(w: CardOut, c: Card) -> bool {
    w.answer == 0
        && w.length == c.length as usize
        && access::equal_fronts(&w.bytes, &c.bytes, c.length)
        && buffers::bytes_untouched(&w.bytes, c.length, CARD_ROOM as u32)
}

// Whether the board is written as that.
pub fn write_right(s: Session) -> bool {
    let board = s.board;
    is_written(calls::write(board), reference::card::build(problem_now(s)))
}

// Whether the board is written as the history card with that and with what the log says was replaced.
pub fn history_write_right(s: Session) -> bool {
    let board = s.board;
    is_written(
        history_calls::write(board),
        history_card::build(problem_now(s), s.log.records_now()),
    )
}

// Whether a call takes back a record of the card.
pub fn reaches_card(s: Session, c: Call) -> bool {
    c.kind == Kind::TakeBack && s.log.count == 0 && s.log.standing() != 0
}
