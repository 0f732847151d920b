// Cards with one bad record of each kind among sound ones: 27, whatever comes after it; 3 where it runs past the end.
// And cards whose count is above 200.
use crate::{changed, compared, samples};
use harness::{boards, calls, damage, histories};
use reference::card::Card;
use reference::history::{History, Record};
use reference::history_card::Reading;
use reference::history_sample::{BAD_KINDS, Bad};
use reference::problem::Problem;
use reference::random::Random;
use reference::refusals::{BAD_FILLING, BAD_LENGTH, BAD_RECORDS, number_of};
use reference::tally::Tally;
use reference::{fields, history_card, history_sample, sample};

// What the program counts beside the faults.
const CARDS: u32 = 3;

const BAD: u32 = 4;

const PAST_THE_END: u32 = 5;

const SOUND: u32 = 6;

const FILLED: u32 = 7;

const COUNTS: u32 = 8;

// A card with the answer that is due by 02's words: the reference's and the planner's. Another answer in the place of
// one of them has to be reported.
fn tried(tally: Tally, which: u32, c: Card, due: u32) -> Tally {
    let o = calls::open(c);
    let r = compared::reading_of(c);
    let right = compared::opened_right(o, r) && number_of(r) == due;
    let wrong = match r {
        Ok(_) => Err(BAD_RECORDS),
        Err(_) => Ok(Reading {
            problem: boards::problem_of(o.board),
            history: histories::of_board(o.board),
        }),
    };
    tally
        .checked(CARDS, right)
        .with(which, 1)
        .planted(!compared::opened_right(o, wrong))
}

// So many sound records, with that one put among them at a place.
fn with_one(h: History, at: u32, r: Record) -> History {
    let last = h.nth(at);
    h.with(last).with_nth(at, r)
}

// The bad record last: cut by a byte it runs past the end, and a byte more changes nothing.
fn tried_last(tally: Tally, b: Bad, h: History) -> Tally {
    let c = history_card::build(b.problem, h.with(b.bad));
    let t = tried(tally, BAD, c, BAD_RECORDS);
    let u = tried(t, PAST_THE_END, changed::cut(c), BAD_LENGTH);
    let v = tried(u, BAD, changed::with_byte(c, 255), BAD_RECORDS);
    tried(v, BAD, changed::with_byte(c, 0), BAD_RECORDS)
}

// The bad record in any place, with all the rest in order.
fn tried_among(tally: Tally, b: Bad, h: History, g: Random) -> Tally {
    let at = g.below(h.count);
    let c = history_card::build(b.problem, with_one(h, at, b.bad));
    tried(tally, BAD, c, BAD_RECORDS)
}

fn tried_bad(tally: Tally, p: Problem, kind: u32, g: Random) -> Tally {
    let arc = damage::some_arc(g, p.n, p.root);
    let b = history_sample::nth_bad(p, kind, arc.tail, arc.head, g.next());
    let count = g.below(6);
    let h = history_sample::some_history(b.problem, count, g.below(1000000));
    let t = tried_last(tally, b, h);
    if count == 0 {
        return t;
    }
    tried_among(t, b, h, g)
}

fn tried_kinds(tally: Tally, p: Problem, g: Random) -> Tally {
    (0..BAD_KINDS).fold(
        tally,
        |t, kind| tried_bad(
            t,
            p,
            kind,
            Random::seeded(kind.wrapping_add(g.below(100000))),
        ),
    )
}

// Where the last bit is a filling bit, the card with it set is 8; and 3 with a byte more, as 3 comes first.
fn tried_filling(tally: Tally, c: Card, end: u32) -> Tally {
    if end % 8 == 0 {
        return tally;
    }
    let filled = changed::with_last_bit(c);
    let t = tried(
        tally,
        PAST_THE_END,
        changed::with_byte(filled, 0),
        BAD_LENGTH,
    );
    tried(t, FILLED, filled, BAD_FILLING)
}

// Where the records of a card for n positions end.
fn end_of(n: u32, h: History) -> u32 {
    let mut at = history_card::records_at(n);
    for r in h.recorded() {
        at = at.wrapping_add(history_card::length_of(r));
    }
    at
}

// A sound card: cut it runs past the end, with a byte more it is too long.
fn tried_sound(tally: Tally, p: Problem, k: u32) -> Tally {
    let s = samples::with_records(p, (k % 7).wrapping_add(1), k);
    let c = samples::recorded_card(s);
    let t = tried(tally, SOUND, c, 0);
    let u = tried(t, PAST_THE_END, changed::cut(c), BAD_LENGTH);
    let v = tried(u, PAST_THE_END, changed::with_byte(c, 0), BAD_LENGTH);
    let w = tried(v, PAST_THE_END, changed::with_byte(c, 1), BAD_LENGTH);
    tried_filling(w, c, end_of(p.n, s.history))
}

// A count of 201 to 255, with 200 sound records behind it or with nothing: 27 at once. Cut by a byte it runs past the
// end itself.
fn tried_count(tally: Tally, p: Problem, k: u32) -> Tally {
    let s = samples::with_records(p, 200, k);
    let mut h = s.history;
    h.count = (k % 55).wrapping_add(201);
    let c = history_card::build(p, h);
    let bare = changed::with_length(c, fields::whole_bytes(history_card::records_at(p.n)));
    let t = tried(tally, COUNTS, c, BAD_RECORDS);
    let u = tried(t, COUNTS, bare, BAD_RECORDS);
    tried(u, PAST_THE_END, changed::cut(bare), BAD_LENGTH)
}

// Cards of 2 to 31 positions, so that there is an arc, and a position that is not there.
fn run(count: u32) -> Tally {
    let mut t = Tally::zero();
    for k in 0..count {
        let g = Random::seeded(k);
        let p = sample::any_instance(g, k % 30 + 2);
        t = tried_kinds(t, p, g);
        t = tried_sound(t, p, k);
        t = tried_count(t, p, k);
    }
    t
}

pub fn all() {
    run(120).report(
        b"cards\nof these with a bad record\nthat run past the end, or are too long\nsound\nwith a filling bit\n\
        with a count above 200\n",
    );
}
