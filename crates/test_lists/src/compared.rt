// What the planner gave for a list, held to what is due; and the same with one fault planted, which has to be reported.
use crate::dues::Due;
use crate::lent::ListAnswered;
use crate::{dues, judged, lists};
use board::Board;
use harness::damage::Arc;
use harness::session::Session;
use harness::{boards, calls, damage, faults, session};
use reference::call::Call;
use reference::history::RECORDS;
use reference::problem::MAX_BUDGET;
use reference::random::Random;
use reference::refusals::{
    BAD_BUDGET, HISTORY_EMPTY, HISTORY_FULL, NO_SUCH_ARC, NO_VERTEX, number_of,
};
use reference::tally::Tally;

// What every part counts beside the faults: six answers have a count each, and all others one. A part's own follow.
const LISTS: u32 = 3;

const APPLIED: u32 = 4;

const TAKE_BACKS: u32 = 5;

const GROUPS: u32 = 6;

const REFUSED: u32 = 7;

const ANSWERS: u32 = 8;

pub const OWN: u32 = 15;

fn planted_numbers(tally: Tally, a: ListAnswered, due: Due) -> Tally {
    (0..judged::NUMBERS).fold(
        tally,
        |t, kind| t.planted(!judged::is_right(judged::with_number(a, kind), due)),
    )
}

// Another board for the list alone.
fn planted_alone(tally: Tally, a: ListAnswered, due: Due, b: Board) -> Tally {
    tally.planted(!judged::is_right(judged::with_board(a, b), due))
}

// Another board for both the list and the single calls, so that only the log can tell.
fn planted_both(tally: Tally, a: ListAnswered, due: Due, b: Board) -> Tally {
    planted_alone(tally, a, dues::with_single_board(due, b), b)
}

// Another budget, with no record of it.
fn planted_budget(tally: Tally, a: ListAnswered, due: Due) -> Tally {
    let mut b = a.board;
    b.budget = b.budget.wrapping_add(1);
    planted_both(tally, a, due, b)
}

// One press more, where there is room for it.
fn planted_more(tally: Tally, a: ListAnswered, due: Due) -> Tally {
    let b = a.board;
    let made = calls::made(b, Call::budget(b.budget));
    if made.answer != 0 {
        return tally;
    }
    let more = made.board;
    planted_both(planted_alone(tally, a, due, more), a, due, more)
}

// The last press less, where there is one.
fn planted_less(tally: Tally, a: ListAnswered, due: Due) -> Tally {
    if a.applied == 0 {
        return tally;
    }
    planted_alone(tally, a, due, due.singles.before)
}

// Another mark, price, budget, number of records, mark where no arc can be, and latest record: each for the list alone.
// Where no record stands, the last is one past the count.
fn planted_fields(tally: Tally, a: ListAnswered, due: Due, arc: Arc) -> Tally {
    let b = a.board;
    (0..faults::KINDS).fold(
        tally,
        |t, kind| planted_alone(t, a, due, faults::with_fault(b, kind, arc.tail, arc.head)),
    )
}

// Another record past the count, where there is room for one.
fn planted_past(tally: Tally, a: ListAnswered, due: Due, arc: Arc) -> Tally {
    let b = a.board;
    if RECORDS <= b.count {
        return tally;
    }
    planted_alone(tally, a, due, faults::with_fault_past(b, arc.head))
}

// Another mark for both, where there is an arc.
fn planted_mark(tally: Tally, a: ListAnswered, due: Due, arc: Arc) -> Tally {
    let b = a.board;
    if !boards::problem_of(b).is_arc(arc.tail, arc.head) {
        return tally;
    }
    let marked = faults::with_fault(b, faults::MARK, arc.tail, arc.head);
    planted_both(tally, a, due, marked)
}

// The faults at a place that the number of the list picks.
fn planted_there(tally: Tally, a: ListAnswered, due: Due) -> Tally {
    let b = a.board;
    let g = Random::seeded(tally.count(LISTS));
    let arc = damage::some_arc(g, b.n, b.root);
    let t = planted_fields(tally, a, due, arc);
    planted_mark(planted_past(t, a, due, arc), a, due, arc)
}

fn nth_answer(answer: u32) -> u32 {
    match answer {
        0 => 0,
        NO_VERTEX => 1,
        NO_SUCH_ARC => 2,
        BAD_BUDGET => 3,
        HISTORY_FULL => 4,
        HISTORY_EMPTY => 5,
        _ => 6,
    }
}

fn counted(tally: Tally, due: Due) -> Tally {
    let s = due.singles;
    let t = tally.with(APPLIED, s.applied);
    let u = t.with(TAKE_BACKS, s.take_backs);
    let v = u.with(GROUPS, s.groups);
    let w = v.with(ANSWERS.wrapping_add(nth_answer(number_of(s.ended))), 1);
    if s.ended.is_ok() {
        return w;
    }
    w.with(REFUSED, 1)
}

// One list handed over.
pub fn compared(tally: Tally, a: ListAnswered, due: Due) -> Tally {
    let t = counted(tally, due).checked(LISTS, judged::is_right(a, due));
    let u = planted_budget(planted_numbers(t, a, due), a, due);
    let v = planted_less(planted_more(u, a, due), a, due);
    planted_there(v, a, due)
}

// The last board of a list written, as a plain card and as a history card; and with another budget, which
// has to be reported.
pub fn written(tally: Tally, which: u32, s: Session) -> Tally {
    let mut wrong = s;
    let mut b = s.board;
    b.budget = (b.budget % MAX_BUDGET).wrapping_add(1);
    wrong.board = b;
    let right = session::write_right(s) && session::history_write_right(s);
    let t = tally.checked(which, right);
    let u = t.planted(!session::write_right(wrong));
    u.planted(!session::history_write_right(wrong))
}
