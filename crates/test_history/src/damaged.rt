// History cards damaged in every way, against the reference's reading: small ones at every length and with each bit
// changed, others with bytes appended, bits changed, cut, or with noise from some place on. The old console refuses
// each of them.
use crate::{changed, compared, samples};
use harness::calls::Opened;
use harness::{calls, faults, history_calls};
use reference::card::{CARD_ROOM, Card};
use reference::history_card::Reading;
use reference::random::Random;
use reference::refusals::{BAD_COUNT, CARD_SHORT};
use reference::tally::Tally;
use reference::{access, history_card};

// What the program counts beside the faults: each answer has a count.
const CARDS: u32 = 3;

const OLD_CONSOLE: u32 = 4;

const ANSWERS: u32 = 5;

// "An old console refuses every new card by 2", and what is under 5 bytes by 1.
fn tried_old_console(tally: Tally, c: Card) -> Tally {
    if !history_card::is_history_card(c.as_slice()) {
        return tally;
    }
    let due = if c.length < 5 { CARD_SHORT } else { BAD_COUNT };
    let answer = history_calls::old_console_answer(c);
    let t = tally.checked(OLD_CONSOLE, answer == due);
    t.planted(answer != due.wrapping_add(1))
}

// What opening gave with a fault in the board, which has to be reported.
fn planted_board(tally: Tally, o: Opened, r: Result<Reading, u32>, kind: u32) -> Tally {
    let b = o.board;
    let mut wrong = o;
    wrong.board = faults::with_fault(b, kind, 0, 1);
    tally.planted(!compared::opened_right(wrong, r))
}

// What opening gave with another answer; with another budget or number of records, of the blank board too; and where it
// opened with records, with another latest one.
fn planted(tally: Tally, o: Opened, r: Result<Reading, u32>) -> Tally {
    let mut wrong = o;
    wrong.answer = o.answer.wrapping_add(1);
    let t = tally.planted(!compared::opened_right(wrong, r));
    let u = planted_board(t, o, r, faults::BUDGET);
    let v = planted_board(u, o, r, faults::COUNT);
    let b = o.board;
    if o.answer != 0 || b.count == 0 {
        return v;
    }
    planted_board(v, o, r, faults::RECORDS_FROM)
}

pub fn tried(tally: Tally, c: Card) -> Tally {
    let o = calls::open(c);
    let r = compared::reading_of(c);
    let t = tally.checked(CARDS, compared::opened_right(o, r));
    let u = t.with(ANSWERS.wrapping_add(compared::nth_answer(o.answer)), 1);
    planted(tried_old_console(u, c), o, r)
}

// Every length up to four bytes more than the card has.
fn tried_lengths(tally: Tally, c: Card) -> Tally {
    let mut t = tally;
    let count = c.length.wrapping_add(5);
    for length in 0..count {
        t = tried(t, changed::with_length(c, length));
    }
    t
}

// Each bit changed.
fn tried_bits(tally: Tally, c: Card) -> Tally {
    let mut t = tally;
    let count = c.length.wrapping_mul(8);
    for k in 0..count {
        t = tried(t, changed::with_bit(c, k));
    }
    t
}

fn tried_small(tally: Tally, k: u32) -> Tally {
    let c = samples::recorded_card(samples::nth_small(k));
    tried_bits(tried_lengths(tally, c), c)
}

fn run_small(tally: Tally, count: u32) -> Tally {
    (0..count).fold(tally, |t, k| tried_small(t, k))
}

// A card with a bit changed, with two, with a byte appended, cut, cut anywhere, with noise from some byte on.
fn tried_damaged(tally: Tally, c: Card, g: Random) -> Tally {
    let h = g.next();
    let bits = c.length.wrapping_mul(8);
    let d = changed::with_bit(c, g.below(bits));
    let t = tried(tried(tally, c), d);
    let u = tried(t, changed::with_bit(d, h.below(bits)));
    let v = tried(u, changed::with_byte(c, access::narrow(h.word())));
    let w = tried(v, changed::with_last_bit(c));
    let x = tried(tried(w, changed::cut(c)), changed::cut(d));
    let y = tried(x, changed::with_length(c, h.below(c.length)));
    tried(y, changed::with_noise(c, h.below(c.length), h))
}

fn run_any(tally: Tally, count: u32) -> Tally {
    (0..count).fold(tally, |t, k| {
        let c = samples::recorded_card(samples::nth(k));
        tried_damaged(t, c, Random::seeded(k))
    })
}

// Noise of many lengths behind the six bits 63.
fn tried_noise(tally: Tally, length: u32) -> Tally {
    let start = Card {
        bytes: [252; CARD_ROOM],
        length,
    };
    let g = Random::seeded(length);
    let noise = changed::with_noise(start, 1, g.next());
    let t = tried(tally, noise);
    tried(t, changed::with_bit(noise, g.below(6).wrapping_add(6)))
}

fn run_noise(tally: Tally, count: u32) -> Tally {
    (0..count).fold(tally, |t, k| tried_noise(t, k.wrapping_mul(7)))
}

pub fn all() {
    let t = run_small(Tally::zero(), 60);
    run_noise(run_any(t, 640), 700).report(
        b"cards\nhistory cards shown to the old console\nanswer 0:\nanswer 1:\nanswer 2:\nanswer 3:\nanswer 4:\n\
        answer 5:\nanswer 6:\nanswer 7:\nanswer 8:\nanswer 27:\nanother answer:\n",
    );
}
