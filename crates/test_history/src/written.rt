// Boards with records of every kind: written as history cards they have the reference's bytes, and opened again they
// are the same, records too. A damaged board is 15, then a short buffer 14.
use crate::{compared, samples};
use board::Board;
use harness::{boards, calls, changes, damage, faults, histories, history_calls, session};
use reference::card::{CARD_ROOM, Card};
use reference::history::History;
use reference::history_card;
use reference::problem::Problem;
use reference::random::Random;
use reference::refusals::{BUFFER_SHORT, INVALID_BOARD};
use reference::tally::Tally;

// What the program counts beside the faults.
const BOARDS: u32 = 3;

const RECORDS: u32 = 4;

const OPENED: u32 = 5;

const WRITTEN_AGAIN: u32 = 6;

const PLAIN_CARDS: u32 = 7;

const SHORT: u32 = 8;

const EXACT: u32 = 9;

const CHANGED: u32 = 10;

const DAMAGED: u32 = 11;

// A write into a buffer that is one byte too short, into one of no byte, and into one that is just long enough.
fn tried_rooms(tally: Tally, b: Board, c: Card) -> Tally {
    let less = c.length.wrapping_sub(1);
    let short = history_calls::write_with(b, less);
    let none = history_calls::write_with(b, 0);
    let exact = history_calls::write_with(b, c.length);
    let t = tally.checked(SHORT, compared::written_right(short, Err(BUFFER_SHORT)));
    let u = t.checked(SHORT, compared::written_right(none, Err(BUFFER_SHORT)));
    let v = u.checked(EXACT, compared::written_right(exact, Ok(c)));
    compared::planted_written(v, short, Err(BUFFER_SHORT), less)
}

// The card opened: the same board; and written again from there, as a history card and as a plain one.
fn tried_opened(tally: Tally, c: Card, p: Problem, h: History) -> Tally {
    let o = calls::open(c);
    let b = o.board;
    let t = tally.checked(OPENED, o.answer == 0 && histories::is_board(b, p, h));
    let again = history_calls::write(b);
    let u = t.checked(WRITTEN_AGAIN, compared::written_right(again, Ok(c)));
    u.checked(
        PLAIN_CARDS,
        session::is_written(calls::write(b), reference::card::build(p)),
    )
}

// A fault of the board that nobody can see: in the mark of a cell where no arc can be.
const UNSEEN: u32 = 4;

// Whether a fault of that kind is one of this board: the last ones are of its latest record.
fn can_plant(kind: u32, count: usize) -> bool {
    kind != UNSEEN && (kind < faults::RECORDS_FROM || count != 0)
}

// The board with each fault: it is another one, and it is written otherwise or refused.
fn planted(tally: Tally, b: Board, c: Card, p: Problem, h: History, g: Random) -> Tally {
    let arc = damage::some_arc(g, p.n, p.root);
    let mut t = tally;
    for kind in 0..faults::KINDS {
        if can_plant(kind, b.count) {
            let wrong = faults::with_fault(b, kind, arc.tail, arc.head);
            t = t.planted(!histories::is_board(wrong, p, h));
            t = t.planted(!compared::written_right(history_calls::write(wrong), Ok(c)));
        }
    }
    t
}

// The board with a change: 15 into any buffer where it is damage, and else the card of what it is then.
fn tried_change(tally: Tally, b: Board, is_damaged: bool, room: u32) -> Tally {
    let c = history_card::build(boards::problem_of(b), histories::of_board(b));
    let whole = history_calls::write(b);
    if is_damaged {
        let w = history_calls::write_with(b, room);
        let t = tally.checked(DAMAGED, compared::written_right(w, Err(INVALID_BOARD)));
        return t.planted(!compared::written_right(whole, Ok(c)));
    }
    let t = tally.checked(CHANGED, compared::written_right(whole, Ok(c)));
    t.planted(!compared::written_right(whole, Err(INVALID_BOARD)))
}

fn tried_changes(tally: Tally, b: Board, g: Random) -> Tally {
    (0..changes::KINDS).fold(tally, |t, kind| {
        let d = changes::nth_change(b, kind, g);
        let room = g.next().below(CARD_ROOM as u32 + 1);
        tried_change(t, d.board, d.is_damaged, room)
    })
}

// Boards of two positions and more, where there is an arc to change; every eighth with every change.
fn tried_wrong(tally: Tally, k: u32, b: Board, c: Card, p: Problem, h: History) -> Tally {
    if p.n < 2 {
        return tally;
    }
    let g = Random::seeded(k);
    let t = planted(tally, b, c, p, h, g);
    if k % 8 != 5 {
        return t;
    }
    tried_changes(t, b, g.next())
}

fn tried(tally: Tally, k: u32) -> Tally {
    let s = samples::nth(k);
    let p = s.problem;
    let h = s.history;
    let b = histories::board_with(p, h, Random::seeded(k).state);
    let c = history_card::build(p, h);
    let w = history_calls::write(b);
    let t = tally.checked(BOARDS, compared::written_right(w, Ok(c)));
    let u = t.with(RECORDS, h.count);
    let v = compared::planted_written(u, w, Ok(c), Random::seeded(k).below(CARD_ROOM as u32));
    tried_wrong(tried_opened(tried_rooms(v, b, c), c, p, h), k, b, c, p, h)
}

fn run(count: u32) -> Tally {
    (0..count).fold(Tally::zero(), |t, k| tried(t, k))
}

pub fn all() {
    run(640).report(
        b"boards written\nrecords\nopened\nwritten again\nwritten as plain cards\nbuffers too short\n\
        buffers just long enough\nchanged boards\ndamaged boards\n",
    );
}
