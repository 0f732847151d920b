// "the longest is 5,174 bytes": 32 positions, and 200 groups of the console to all others, with any marks. A byte more
// is 3.
use crate::{changed, compared};
use harness::{calls, histories, history_calls};
use reference::card::Card;
use reference::history::{History, RECORDS, Record};
use reference::problem::{MAX_VERTICES, Problem};
use reference::random::Random;
use reference::refusals::{BAD_LENGTH, BUFFER_SHORT};
use reference::tally::Tally;
use reference::{access, history_card, problem, sample, shown};

// What the program counts beside the faults.
const CARDS: u32 = 3;

const LENGTH: u32 = 4;

const OPENED: u32 = 5;

const WRITTEN: u32 = 6;

const LONGER: u32 = 7;

// "the longest is 5,174 bytes".
const LONGEST: u32 = 5174;

// The instance with an arc from the root to every other position.
fn with_all_arcs(p: Problem) -> Problem {
    let mut q = p;
    for head in 0..MAX_VERTICES {
        let at = problem::cell(p.root, head);
        q.weights[at] = head.wrapping_add(1);
        q.marks[at] = 0;
    }
    q
}

// A group of the root to every other position, with marks of every kind.
fn nth_group(root: u32, k: u32) -> Record {
    let mut r = Record::of_group(root, 4294967295 ^ shown::only(root));
    for head in 0..MAX_VERTICES {
        if head != root {
            r = r.with_mark(head, access::narrow(k.wrapping_add(head) % 3));
        }
    }
    r
}

fn all_groups(root: u32) -> History {
    (0..RECORDS as u32).fold(History::empty(), |h, k| h.with(nth_group(root, k)))
}

// The card opened and written again; and the same with a byte more, whatever it is.
fn tried_card(tally: Tally, c: Card, p: Problem, h: History) -> Tally {
    let o = calls::open(c);
    let b = o.board;
    let t = tally.checked(OPENED, o.answer == 0 && histories::is_board(b, p, h));
    let u = t.checked(
        WRITTEN,
        compared::written_right(history_calls::write(b), Ok(c)),
    );
    let short = history_calls::write_with(b, LONGEST - 1);
    let v = u.checked(WRITTEN, compared::written_right(short, Err(BUFFER_SHORT)));
    let zero = calls::open(changed::with_byte(c, 0));
    let one = calls::open(changed::with_byte(c, 1));
    let w = v.checked(LONGER, zero.answer == BAD_LENGTH);
    w.checked(LONGER, one.answer == BAD_LENGTH)
}

// One mark of the last record another: another board, and another card.
fn planted(tally: Tally, c: Card, p: Problem, h: History, head: u32) -> Tally {
    let mut r = h.latest();
    let mark = r.mark_at(head);
    r = r.with_mark(head, (mark % 3 + 1) % 3);
    let other = h.without_latest().with(r);
    let o = calls::open(c);
    let b = o.board;
    let t = tally.planted(!histories::is_board(b, p, other));
    let wrong = history_calls::write(histories::board_with(p, other, 0));
    t.planted(!compared::written_right(wrong, Ok(c)))
}

fn tried(tally: Tally, k: u32) -> Tally {
    let p = with_all_arcs(sample::any_instance(Random::seeded(k), MAX_VERTICES));
    let h = all_groups(p.root);
    let c = history_card::build(p, h);
    let b = histories::board_with(p, h, Random::seeded(k).state);
    let t = tally.checked(CARDS, c.length == LONGEST);
    let u = t.with(LENGTH, c.length);
    let v = u.checked(
        WRITTEN,
        compared::written_right(history_calls::write(b), Ok(c)),
    );
    let head = p.root.wrapping_add((k % 31).wrapping_add(1)) % MAX_VERTICES;
    planted(tried_card(v, c, p, h), c, p, h, head)
}

fn run(count: u32) -> Tally {
    (0..count).fold(Tally::zero(), |t, k| tried(t, k))
}

pub fn all() {
    run(8).report(b"longest cards\nbytes of all\nopened\nwritten\nlonger ones\n");
}
