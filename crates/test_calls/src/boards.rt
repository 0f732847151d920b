// Boards with one field damaged at a time: every call is refused with 15 and touches nothing. Rubbish where nobody may
// look is no damage.
use board::Board;
use harness::damage::Damaged;
use harness::replies::Reply;
use harness::{boards, buffers, calls, changes, replies};
use reference::call::{Call, Kind};
use reference::card::CARD_ROOM;
use reference::certificate::PARENT_ROOM;
use reference::problem::MAX_VERTICES;
use reference::random::Random;
use reference::refusals::{BUFFER_SHORT, INVALID_BOARD, NOT_A_TREE};
use reference::shown::CUT_WORDS;
use reference::tally::Tally;
use reference::{call, sample};

// What the program counts beside the faults.
const SOUND: u32 = 3;

const DAMAGED: u32 = 4;

const CALLS: u32 = 5;

const REFUSED: u32 = 6;

// The calls that are made on each board: nine that change one; a write as a plain card, as a history card, a look, and
// all three with buffers too short for any board here; a check of a list that is no tree, and of one that is too short.
const KINDS_OF_CALL: u32 = 17;

const WRITE: u32 = 9;

const HISTORY_WRITE: u32 = 10;

const LOOK: u32 = 11;

const SHORT_WRITE: u32 = 12;

const SHORT_HISTORY_WRITE: u32 = 13;

const SHORT_LOOK: u32 = 14;

const CHECK: u32 = 15;

const SHORT_CHECK: u32 = 16;

fn nth_call(k: u32) -> Call {
    match k {
        0 => Call::new(Kind::Pin, 0, 1),
        1 => Call::new(Kind::Ban, 1, 0),
        2 => Call::new(Kind::Clear, 33, 4294967295),
        3 => Call::budget(17),
        4 => Call::budget(4294967295),
        5 => Call::new(Kind::PinGroup, 0, 3),
        6 => Call::new(Kind::BanGroup, 33, 4294967295),
        7 => Call::new(Kind::ClearGroup, 1, 0),
        _ => Call::take_back(),
    }
}

fn reply_of(b: Board, k: u32) -> Reply {
    match k {
        WRITE => replies::of_write(b, CARD_ROOM as u32),
        HISTORY_WRITE => replies::of_history_write(b, CARD_ROOM as u32),
        LOOK => replies::of_look(
            b,
            buffers::PARENTS as u32,
            buffers::STATES as u32,
            buffers::CUTS as u32,
        ),
        SHORT_WRITE => replies::of_write(b, 4),
        SHORT_HISTORY_WRITE => replies::of_history_write(b, 6),
        SHORT_LOOK => replies::of_look(b, 1, 3, CUT_WORDS - 1),
        CHECK => replies::of_check(b, PARENT_ROOM as u32),
        SHORT_CHECK => replies::of_check(b, 1),
        _ => replies::of_call(b, calls::made(b, nth_call(k))),
    }
}

// On a damaged board 15, which comes before 14, and nothing touched; on a sound one not 15, 14 where a buffer or a list
// is too short, and 21 for the list that is no tree.
fn is_right(r: Reply, k: u32, is_damaged: bool) -> bool {
    if is_damaged {
        return replies::is_reply(r, INVALID_BOARD);
    }
    if k < WRITE {
        return r.answer != INVALID_BOARD;
    }
    if k < SHORT_WRITE {
        return r.answer == 0;
    }
    if k == CHECK {
        return replies::is_reply(r, NOT_A_TREE);
    }
    replies::is_reply(r, BUFFER_SHORT)
}

// A reply that touched what it was lent, which has to be reported where the board is damaged.
fn planted_touch(tally: Tally, r: Reply, k: u32, is_damaged: bool) -> Tally {
    let mut touched = r;
    touched.untouched = false;
    if is_damaged {
        return tally.planted(!is_right(touched, k, true));
    }
    tally
}

// One call, and whether 15 came. A sound board taken for a damaged one has to be reported, and a damaged one taken for
// a sound one.
fn tried_call(tally: Tally, d: Damaged, k: u32) -> Tally {
    let b = d.board;
    let r = reply_of(b, k);
    let t = tally.checked(CALLS, is_right(r, k, d.is_damaged));
    let v = t.planted(!is_right(r, k, !d.is_damaged));
    let u = planted_touch(v, r, k, d.is_damaged);
    if r.answer == INVALID_BOARD {
        return u.with(REFUSED, 1);
    }
    u
}

// Whether a call is left out: a look at a large sound board takes long, and test_cases has it.
fn is_left_out(d: Damaged, k: u32) -> bool {
    let b = d.board;
    k == LOOK && !d.is_damaged && 7 < b.n
}

// Every call on one board.
fn tried(tally: Tally, d: Damaged) -> Tally {
    let mut t = tally.with(if d.is_damaged { DAMAGED } else { SOUND }, 1);
    for k in 0..KINDS_OF_CALL {
        if !is_left_out(d, k) {
            t = tried_call(t, d, k);
        }
    }
    t
}

// Boards here have from 2 vertices, so that there is an arc to damage, to the most.
const SIZES: u32 = MAX_VERTICES - 1;

// A sound board of each size in turn, with some history.
pub fn some_board(k: u32) -> Board {
    let g = Random::seeded(k);
    let p = sample::any_instance(g, k % SIZES + 2);
    let mut b = boards::of_problem(p);
    let mut r = g.next();
    for step in 0u32..70 {
        let made = calls::made(b, call::some_call(r, p, 4));
        b = made.board;
        r = call::drawn(r);
    }
    b
}

// The board as it is, and then with each change.
fn tried_all(tally: Tally, b: Board, g: Random) -> Tally {
    let sound = Damaged {
        is_damaged: false,
        board: b,
    };
    (0..changes::KINDS).fold(
        tried(tally, sound),
        |t, kind| tried(t, changes::nth_change(b, kind, g)),
    )
}

fn run(count: u32) -> Tally {
    (0..count).fold(Tally::zero(), |t, k| {
        let g = Random::seeded(k);
        tried_all(t, some_board(k), g)
    })
}

pub fn all() {
    run(310).report(b"sound boards\ndamaged boards\ncalls\nrefused with 15\n");
}
