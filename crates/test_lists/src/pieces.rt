// Random lists of calls on boards opened from cards, handed over in pieces, the next one from behind the refused call:
// what each piece gives, and a look and a write at the end of the list.
use crate::lists::{List, PERIOD};
use crate::looks::LISTED;
use crate::making::Style;
use crate::{compared, dues, lists, looks, making};
use harness::session;
use harness::session::Session;
use reference::problem::{MAX_VERTICES, Problem};
use reference::random::Random;
use reference::tally::Tally;
use reference::{history_sample, sample};

// What is counted beside what every part counts.
const SESSIONS: u32 = compared::OWN;

const ENDED: u32 = compared::OWN + 1;

const EMPTY: u32 = compared::OWN + 2;

const WHOLE: u32 = compared::OWN + 3;

const APPLIED: u32 = compared::OWN + 4;

const LOOKS: u32 = compared::OWN + 5;

const LACKING: u32 = compared::OWN + 6;

const WRITES: u32 = compared::OWN + 7;

const RECORDS: u32 = compared::OWN + 8;

// How long each list is.
const LENGTH: u32 = PERIOD as u32;

// At most so many pieces of a list, which is enough for each to come to its end.
const PIECES: u32 = 500;

// So many presses come first in a crowded list.
const CROWD: u32 = 190;

// Where a list has come to, and what was counted on the way.
#[derive(Clone, Copy)]
struct Progress {
    session: Session,
    tally: Tally,
    at: u32,
}

// How long the next piece is where so much is left: nothing, all, a few or some.
fn piece_length(g: Random, left: u32) -> u32 {
    let some = g.next();
    let length = match g.below(16) {
        0 => 0,
        1 => left,
        2 | 3 | 4 | 5 => some.below(4).wrapping_add(1),
        _ => some.below(100).wrapping_add(1),
    };
    if left < length { left } else { length }
}

// The first piece of some lists is the whole of it.
fn next_length(k: u32, g: Random, at: u32) -> u32 {
    let left = LENGTH.wrapping_sub(at);
    if at == 0 && k % 7 < 3 {
        return left;
    }
    piece_length(g, left)
}

// Counts the pieces that are empty, those that are all of a list, and those of them that were applied.
fn counted(tally: Tally, count: u32, is_applied: bool) -> Tally {
    if count == 0 {
        return tally.with(EMPTY, 1);
    }
    if count != LENGTH {
        return tally;
    }
    tally.with(WHOLE, 1).with(APPLIED, u32::from(is_applied))
}

fn with_piece(p: Progress, list: List, count: u32) -> Progress {
    let s = p.session;
    let b = s.board;
    let due = dues::due_for(s, list, p.at, count);
    let a = lists::handed(b, list, p.at, count);
    let t = counted(p.tally, count, due.by_log.ended.is_ok());
    let after = a.board;
    Progress {
        session: dues::session_after(s, due, after),
        tally: compared::compared(t, a, due),
        at: dues::place_behind(p.at, due),
    }
}

// The pieces of a list one after the other, and an empty one at its end.
fn in_pieces(start: Progress, list: List, k: u32) -> Progress {
    let mut p = start;
    for step in 0..PIECES {
        if p.at < LENGTH {
            let g = Random::seeded(making::nth_seed(k).wrapping_add(LENGTH + step));
            p = with_piece(p, list, next_length(k, g, p.at));
        }
    }
    with_piece(p, list, 0)
}

// Every fourth card is a large one.
fn nth_card(k: u32) -> Problem {
    if k % 4 == 3 {
        let size = k / 4 % 32 * 5 % (MAX_VERTICES - LISTED);
        return sample::any_instance(Random::seeded(k), size + LISTED + 1);
    }
    sample::small_instance(k)
}

// Few take-backs, or so many that there are often none to take back.
fn nth_back(k: u32) -> u32 {
    match k % 4 {
        0 => 1,
        1 => 3,
        2 => 5,
        _ => 9,
    }
}

// Of 16 calls that are refused so many are kept: each ends a piece.
fn nth_kept(k: u32) -> u32 {
    match k % 5 {
        0 => 16,
        1 => 4,
        2 => 2,
        3 => 1,
        _ => 0,
    }
}

// Six lists in turn are crowded, and six are not.
fn nth_style(k: u32) -> Style {
    Style {
        presses: if k / 6 % 2 == 0 { CROWD } else { 0 },
        back: nth_back(k / 12),
        kept: nth_kept(k),
        wound_up: false,
    }
}

// So many lists begin on a plain card, and as many as follow on a card with records (02, A8), some with 200.
const PLAIN: u32 = 96;

const RECORDED: u32 = 48;

fn nth_session(k: u32) -> Session {
    let card = nth_card(k);
    if k < PLAIN {
        return session::opened(card);
    }
    let count = history_sample::nth_count(k / 4, Random::seeded(k));
    session::opened_with(
        card,
        history_sample::some_history(card, count, k % 4096 * 256),
    )
}

fn one_session(tally: Tally, k: u32) -> Tally {
    let s = nth_session(k);
    let list = making::some_list(s.log, nth_style(k), making::nth_seed(k));
    let start = Progress {
        session: s,
        tally: tally.with(SESSIONS, 1).with(RECORDS, s.log.standing()),
        at: 0,
    };
    let end = in_pieces(start, list, k);
    let t = end.tally.with(ENDED, u32::from(end.at == LENGTH));
    let u = compared::written(t, WRITES, end.session);
    looks::looked(u, LOOKS, LACKING, end.session)
}

fn run(count: u32) -> Tally {
    (0..count).fold(Tally::zero(), |t, k| one_session(t, k))
}

pub fn all() {
    run(PLAIN + RECORDED).report(
        b"pieces\npresses applied\nof these take-backs\nof these groups\npresses refused\n\
        answer 0:\nanswer 9:\nanswer 10:\nanswer 11:\nanswer 12:\nanswer 13:\nanother answer:\n\
        lists\nof these handed over to the end\nempty pieces\nwhole lists\nof these applied\nlooks\n\
        looks held to a log that lacks something\nwrites\nrecords on the cards\n",
    );
}
