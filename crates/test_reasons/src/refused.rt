// "Refusals: 15, 9, 10 (no such link), 14, in this order; nothing touched": boards with a change, damaged or not, any
// two positions, and buffers of which one or both are too short, or just long enough.
use crate::{calls, faults, sessions};
use board::Board;
use harness::damage::Damaged;
use harness::{boards, changes};
use reference::log::check_arc;
use reference::problem::{ABSENT, CELLS, MAX_VERTICES};
use reference::random::Random;
use reference::refusals::{BUFFER_SHORT, INVALID_BOARD, NO_VERTEX};
use reference::sample;
use reference::shown::CUT_WORDS;
use reference::tally::Tally;
use reference_reasons::due;
use reference_reasons::due::Due;

// The counts of the answers, of questions with two of them at once, and of those that nothing refuses.
const DAMAGED: u32 = 9;

const OUTSIDE: u32 = 10;

const NO_LINK: u32 = 11;

const SHORT: u32 = 12;

const TWO_AT_ONCE: u32 = 13;

const LONG_ENOUGH: u32 = 14;

fn count_of(answer: u32) -> u32 {
    match answer {
        INVALID_BOARD => DAMAGED,
        NO_VERTEX => OUTSIDE,
        BUFFER_SHORT => SHORT,
        _ => NO_LINK,
    }
}

// A question: the two positions, and how much is lent of the buffers.
#[derive(Clone, Copy)]
struct Question {
    tail: u32,
    head: u32,
    parents: u32,
    cuts: u32,
}

fn some_position(g: Random, n: u32) -> u32 {
    match g.below(16) {
        0 => 4294967295,
        1 => MAX_VERTICES,
        2 => n,
        _ => g.next().below(n),
    }
}

// Each buffer one short, or both, or nothing lent; or just enough.
fn some_question(g: Random, n: u32) -> Question {
    let h = g.next().next();
    let dice = h.next().next().below(6);
    Question {
        tail: some_position(g, n),
        head: some_position(h, n),
        parents: match dice {
            0 | 1 => n.wrapping_sub(1),
            2 => 0,
            _ => n,
        },
        cuts: match dice {
            1 | 3 => CUT_WORDS - 1,
            2 => 0,
            _ => CUT_WORDS,
        },
    }
}

// How many of a damaged board, a pair that is no arc and short buffers come together.
fn faults_in(d: Damaged, q: Question) -> u32 {
    let p = boards::problem_of(d.board);
    let is_arc = check_arc(&p, q.tail, q.head).is_ok();
    let short = q.parents < p.n || q.cuts < CUT_WORDS;
    u32::from(d.is_damaged)
        .wrapping_add(u32::from(!is_arc))
        .wrapping_add(u32::from(short))
}

// A question to a board. Of a refusal nothing is judged by a table.
fn tried_question(tally: Tally, d: Damaged, q: Question, r: Random) -> Tally {
    let b = d.board;
    let p = boards::problem_of(b);
    let table = [ABSENT; CELLS];
    let both = calls::ask_with(b, q.tail, q.head, q.parents, q.cuts);
    match due::check(&p, d.is_damaged, q.tail, q.head, q.parents, q.cuts) {
        Ok(()) => tally.checked(
            LONG_ENOUGH,
            both.why.reason.is_ok() && both.without.reason.is_ok(),
        ),
        Err(answer) => {
            let refused = Due::refused(answer);
            let which = count_of(answer);
            let t = tally.with(TWO_AT_ONCE, u32::from(1 < faults_in(d, q)));
            let u = faults::tried(t, which, &table, 1, 0, refused, both.why, r);
            faults::tried(u, which, &table, 1, 0, refused, both.without, r)
        }
    }
}

// Every change of a board, with a question each.
fn tried_changes(tally: Tally, b: Board, seed: Random) -> Tally {
    let mut t = tally;
    let mut g = seed;
    for kind in 0..changes::KINDS {
        let d = changes::nth_change(b, kind, g);
        let q = some_question(g.next(), b.n);
        t = tried_question(t, d, q, g);
        g = g.next().next();
    }
    t
}

// A board of 2 to 6 vertices.
fn tried(tally: Tally, k: u32) -> Tally {
    let p = sample::any_instance(Random::seeded(k), k % 5 + 2);
    let progress = sessions::nth(tally, p, k, 12);
    tried_changes(progress.tally, progress.session.board, Random::seeded(k))
}

fn run(count: u32) -> Tally {
    (0..count).fold(Tally::zero(), |t, k| tried(t, k))
}

pub fn all() {
    run(50).report(
        b"boards\nrecords on their cards\ncalls\naccepted\ngroup presses\nrecords taken back\nanswer 15:\nanswer 9:\nanswer 10:\nanswer 14:\ntwo refusals at once\nrefused by nothing\n",
    );
}
