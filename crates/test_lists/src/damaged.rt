// Lists on damaged boards: 15 with nothing applied and the very board, for the empty list too; and the same lists on
// the sound boards, as they are and with changes that are no damage.
use crate::dues::Due;
use crate::lent::ListAnswered;
use crate::lists::{List, PERIOD};
use crate::making::Style;
use crate::{compared, dues, judged, lists, making};
use board::Board;
use harness::damage::Damaged;
use harness::session::Session;
use harness::{boards, changes, session};
use reference::problem::MAX_VERTICES;
use reference::random::Random;
use reference::refusals::INVALID_BOARD;
use reference::tally::Tally;
use reference::{call, sample};

// What is counted beside what every part counts.
const BOARDS: u32 = compared::OWN;

const CHANGED: u32 = compared::OWN + 1;

const DAMAGED: u32 = compared::OWN + 2;

const REFUSED: u32 = compared::OWN + 3;

// Whether a list was refused with 15 and left this board.
fn is_refused(a: ListAnswered, b: Board) -> bool {
    if a.applied != 0 {
        return false;
    }
    if a.answer != INVALID_BOARD {
        return false;
    }
    let after = a.board;
    boards::identical(b, after)
}

// The result with other numbers: all of it has to be reported.
fn planted_numbers(tally: Tally, a: ListAnswered, b: Board) -> Tally {
    (0..judged::NUMBERS).fold(
        tally,
        |t, kind| t.planted(!is_refused(judged::with_number(a, kind), b)),
    )
}

// The board with one record more, and with one less; and the sound board in its place.
fn planted_boards(tally: Tally, a: ListAnswered, b: Board, sound: Board) -> Tally {
    let mut more = b;
    more.count = b.count.wrapping_add(1);
    let mut less = b;
    less.count = b.count.wrapping_sub(1);
    let t = tally.planted(!is_refused(judged::with_board(a, more), b));
    let u = t.planted(!is_refused(judged::with_board(a, less), b));
    u.planted(!is_refused(judged::with_board(a, sound), b))
}

// A list on a damaged board. What it gave is not what is due on the sound one.
fn tried_damaged(tally: Tally, b: Board, sound: Board, list: List, count: u32, due: Due) -> Tally {
    let a = lists::handed(b, list, 0, count);
    let t = tally.checked(DAMAGED, is_refused(a, b));
    let u = t.planted(!judged::is_right(a, due));
    let v = planted_boards(planted_numbers(u, a, b), a, b, sound);
    if a.answer == INVALID_BOARD {
        return v.with(REFUSED, 1);
    }
    v
}

// A list on a sound board, whose result is not that of a damaged one.
fn tried_sound(tally: Tally, b: Board, list: List, count: u32, due: Due) -> Tally {
    let a = lists::handed(b, list, 0, count);
    let t = compared::compared(tally, a, due);
    t.planted(!is_refused(a, b))
}

// What is due on a sound board that was changed: by the same log where nobody may look at the change, and else by what
// can be said of the changed board itself.
fn due_on_changed(b: Board, s: Session, list: List, count: u32) -> Due {
    let before = s.board;
    if boards::alike(before, b) {
        let mut changed = s;
        changed.board = b;
        return dues::due_for(changed, list, 0, count);
    }
    dues::due_on(b, list, 0, count)
}

// A list on a changed board, where this is due on the unchanged one.
fn tried_changed(tally: Tally, d: Damaged, s: Session, list: List, count: u32, due: Due) -> Tally {
    let b = d.board;
    let unchanged = s.board;
    if d.is_damaged {
        return tried_damaged(tally, b, unchanged, list, count, due);
    }
    let own = due_on_changed(b, s, list, count);
    let t = tally.with(CHANGED, 1);
    tried_sound(t, b, list, count, own)
}

// The list on the board with each change.
fn tried_changes(tally: Tally, s: Session, list: List, count: u32, due: Due, g: Random) -> Tally {
    let b = s.board;
    (0..changes::KINDS).fold(tally, |t, kind| {
        let d = changes::nth_change(b, kind, g);
        tried_changed(t, d, s, list, count, due)
    })
}

// A list on the board as it is, and then with each change.
fn tried(tally: Tally, s: Session, list: List, count: u32, g: Random) -> Tally {
    let b = s.board;
    let due = dues::due_for(s, list, 0, count);
    let t = tried_sound(tally, b, list, count, due);
    tried_changes(t, s, list, count, due, g)
}

// Some of the calls are refused.
const STYLE: Style = Style {
    presses: 0,
    back: 4,
    kept: 2,
    wound_up: false,
};

// How many calls the longest of the lists has.
const SEVERAL: u32 = 12;

// The empty list, a take-back, and several calls.
fn tried_lists(tally: Tally, s: Session, seed: u32) -> Tally {
    let g = Random::seeded(seed);
    let several = making::some_list(s.log, STYLE, seed);
    let t = tally.with(BOARDS, 1);
    let u = tried(t, s, lists::take_backs(), 0, g);
    let v = tried(u, s, lists::take_backs(), 1, g);
    tried(v, s, several, SEVERAL, g)
}

// Boards here have from 2 vertices, so that there is an arc to damage, to the most.
const SIZES: u32 = MAX_VERTICES - 1;

fn with_history(start: Session, seed: u32, count: u32) -> Session {
    let mut s = start;
    let card = session::card_of(start);
    for k in 0..count {
        let g = Random::seeded(seed.wrapping_add(k));
        let made = session::with_call(s, call::some_call(g, card, 4));
        s = made.session;
    }
    s
}

// A sound board of each size in turn, every fourth with no history.
fn nth_session(k: u32) -> Session {
    let card = sample::any_instance(Random::seeded(k), k % SIZES + 2);
    let seed = making::nth_seed(k).wrapping_add(PERIOD as u32);
    with_history(session::opened(card), seed, k % 4 * 25)
}

fn run(count: u32) -> Tally {
    (0..count).fold(
        Tally::zero(),
        |t, k| tried_lists(t, nth_session(k), making::nth_seed(k)),
    )
}

pub fn all() {
    run(31).report(
        b"lists on sound boards\npresses applied\nof these take-backs\nof these groups\npresses refused\n\
        answer 0:\nanswer 9:\nanswer 10:\nanswer 11:\nanswer 12:\nanswer 13:\nanother answer:\n\
        boards\nlists on changed sound boards\n\
        lists on damaged boards\nrefused with 15\n",
    );
}
