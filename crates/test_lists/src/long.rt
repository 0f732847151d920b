// The longest lists: the history filled and emptied over and over, with budgets alone and with presses of every kind,
// and a refusal at the end, at the start, in the middle or nowhere.
use crate::lent::LONGEST;
use crate::lists::{List, PERIOD};
use crate::making::Style;
use crate::{compared, dues, lists, making};
use harness::session;
use reference::call::{Call, Kind};
use reference::history::{History, RECORDS};
use reference::log::Log;
use reference::problem::Problem;
use reference::tally::Tally;
use reference::{families, sample};

// What is counted beside what every part counts.
const WRITES: u32 = compared::OWN;

// How many calls each list has.
const LENGTH: u32 = LONGEST as u32;

// The start of a period, where no press stands.
const MIDDLE: u32 = LENGTH / 2;

// Budgets at the start of each period, and take-backs after them.
fn budgets(presses: u32) -> List {
    let mut list = lists::take_backs();
    for (call, k) in list.calls.iter_mut().zip(0..presses) {
        *call = Call::budget(k.wrapping_mul(7).wrapping_add(1));
    }
    list
}

// Presses of every kind until the history is full, and take-backs in the rest of the period; none is refused.
const STYLE: Style = Style {
    presses: RECORDS as u32,
    back: 0,
    kept: 0,
    wound_up: true,
};

fn mixed(card: Problem) -> List {
    making::some_list(
        Log::opened(card, History::empty()),
        STYLE,
        making::nth_seed(0),
    )
}

// A group press that names nothing.
fn empty_group() -> Call {
    Call::new(Kind::BanGroup, 0, 0)
}

fn tried(tally: Tally, card: Problem, list: List) -> Tally {
    let s = session::opened(card);
    let b = s.board;
    let due = dues::due_for(s, list, 0, LENGTH);
    let a = lists::handed(b, list, 0, LENGTH);
    let after = a.board;
    let end = dues::session_after(s, due, after);
    let t = compared::compared(tally, a, due);
    compared::written(t, WRITES, end)
}

// No refusal; the 201st press; a take-back where nothing stands.
fn run_small(tally: Tally, card: Problem) -> Tally {
    let filled = budgets(RECORDS as u32);
    let t = tried(tally, card, filled);
    let u = tried(t, card, budgets(PERIOD as u32));
    tried(
        u,
        card,
        lists::with_other(filled, MIDDLE, Call::take_back()),
    )
}

// A refusal at the last place.
fn run_large(tally: Tally, card: Problem) -> Tally {
    let list = lists::with_other(mixed(card), LENGTH - 1, empty_group());
    tried(tally, card, list)
}

pub fn all() {
    run_large(
        run_small(Tally::zero(), sample::small_instance(5)),
        families::nth_instance(9),
    )
    .report(
        b"lists of 100000\npresses applied\nof these take-backs\nof these groups\npresses refused\n\
        answer 0:\nanswer 9:\nanswer 10:\nanswer 11:\nanswer 12:\nanswer 13:\nanother answer:\nwrites\n",
    );
}
