// The planner's calls, without their contracts, which no test needs.
use crate::buffers;
use board::create::blank_board;
use board::{Answered, Board};
use instance::refusals::Refusal;
use instance::{Outcome, Vertex};
use planner::View;
use reference::call::{Call, Kind};
use reference::card::{CARD_ROOM, Card};
use reference::certificate::Certificate;
use reference::{access, outcome};

// The kind of a look that is refused, beside those of the reference.
pub const REFUSED: u32 = 3;

// What a look gave: its kind; the answer, 0 where it was not refused; the total, 0 where there is no tree; the number
// of pairs; and the buffers.
#[derive(Clone, Copy)]
pub struct Shown {
    pub kind: u32,
    pub answer: u32,
    pub total: u32,
    pub pairs: u32,
    pub parents: [u8; buffers::PARENTS],
    pub states: [u8; buffers::STATES],
    pub cuts: [u32; buffers::CUTS],
}

// The view's part of it.
#[derive(Clone, Copy)]
struct Summary {
    kind: u32,
    answer: u32,
    total: u32,
    pairs: u32,
}

fn of_outcome(o: Outcome, pairs: u32) -> Summary {
    match o {
        Outcome::Plan(total) => Summary {
            kind: outcome::PLAN,
            answer: 0,
            total,
            pairs,
        },
        Outcome::Over(total) => Summary {
            kind: outcome::OVER,
            answer: 0,
            total,
            pairs,
        },
        Outcome::NoTree => Summary {
            kind: outcome::NONE,
            answer: 0,
            total: 0,
            pairs,
        },
    }
}

fn of_view(v: View) -> Summary {
    match v {
        View::Shown(o, pairs) => of_outcome(o, pairs),
        View::Refused(answer) => Summary {
            kind: REFUSED,
            answer,
            total: 0,
            pairs: 0,
        },
    }
}

pub fn as_shown(
    v: View,
    parents: [u8; buffers::PARENTS],
    states: [u8; buffers::STATES],
    cuts: [u32; buffers::CUTS],
) -> Shown {
    let s = of_view(v);
    Shown {
        kind: s.kind,
        answer: s.answer,
        total: s.total,
        pairs: s.pairs,
        parents,
        states,
        cuts,
    }
}

// A look with the first so many bytes and words of the buffers lent.
pub fn look_with(b: Board, parents_room: u32, states_room: u32, cuts_room: u32) -> Shown {
    let mut parents = [buffers::BYTE; buffers::PARENTS];
    let mut states = [buffers::BYTE; buffers::STATES];
    let mut cuts = [buffers::WORD; buffers::CUTS];
    let v = planner::look(
        &b,
        access::front_mut(&mut parents, parents_room as usize),
        access::front_mut(&mut states, states_room as usize),
        access::front_mut(&mut cuts, cuts_room as usize),
    );
    as_shown(v, parents, states, cuts)
}

pub fn look(b: Board) -> Shown {
    look_with(
        b,
        buffers::PARENTS as u32,
        buffers::STATES as u32,
        buffers::CUTS as u32,
    )
}

// What a write gave: the answer, the length and the buffer.
#[derive(Clone, Copy)]
pub struct CardOut {
    pub answer: u32,
    pub length: usize,
    pub bytes: [u8; CARD_ROOM],
}

pub fn card_out(written: Result<usize, Refusal>, bytes: [u8; CARD_ROOM]) -> CardOut {
    match written {
        Ok(length) => CardOut {
            answer: 0,
            length,
            bytes,
        },
        Err(refusal) => CardOut {
            answer: u32::from(refusal),
            length: 0,
            bytes,
        },
    }
}

// A write with the first so many bytes of the buffer lent.
pub fn write_with(b: Board, room: u32) -> CardOut {
    let mut bytes = [buffers::BYTE; CARD_ROOM];
    let written = planner::write_card(b, access::front_mut(&mut bytes, room as usize));
    card_out(written, bytes)
}

pub fn write(b: Board) -> CardOut {
    write_with(b, CARD_ROOM as u32)
}

// What opening a card gave, as the tests compare it with the reference: the answer as its number, and the board; the
// blank one where the card is refused.
#[derive(Clone, Copy)]
pub struct Opened {
    pub answer: u32,
    pub board: Board,
}

pub fn open(c: Card) -> Opened {
    match planner::open_card(c.as_slice()) {
        Ok(board) => Opened { answer: 0, board },
        Err(refusal) => Opened {
            answer: u32::from(refusal),
            board: blank_board(),
        },
    }
}

// A check of a plan, with as much of it lent as was sent.
pub fn check(b: Board, o: Certificate) -> u32 {
    number(planner::check_plan(
        b,
        access::front(&o.parents, o.parents_sent as usize),
        o.total,
        o.count,
        access::front(&o.words, o.words_sent as usize),
    ))
}

// The number that a call answers with.
pub fn number(given: Result<(), Refusal>) -> u32 {
    match given {
        Ok(()) => 0,
        Err(refusal) => u32::from(refusal),
    }
}

// A call that changes a board, by its kind, made on a copy: what it answered, and the board that it left.
pub fn made(before: Board, c: Call) -> Answered {
    let mut board = before;
    let b = &mut board;
    let tail = Vertex(c.first);
    let head = Vertex(c.second);
    let result = match c.kind {
        Kind::Pin => planner::pin(b, tail, head),
        Kind::Ban => planner::ban(b, tail, head),
        Kind::Clear => planner::clear(b, tail, head),
        Kind::Budget => planner::set_budget(b, c.first),
        Kind::PinGroup => planner::pin_group(b, tail, c.second),
        Kind::BanGroup => planner::ban_group(b, tail, c.second),
        Kind::ClearGroup => planner::clear_group(b, tail, c.second),
        _ => planner::take_back(b),
    };
    Answered {
        answer: number(result),
        board,
    }
}
