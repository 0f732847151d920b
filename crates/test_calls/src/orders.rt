// "It depends on root, marks and prices alone, not on the order of presses or take-backs" (02, A10), of the tree that
// is shown where many are as cheap: the marks of an instance of 32 vertices are pressed on a board without them,
// upwards, and on another downwards, with other budgets and with presses that are taken back between. Both show the
// tree of the board that has the marks from the start.
use board::Board;
use harness::calls::Shown;
use harness::{boards, calls};
use reference::call::{Call, Kind};
use reference::history::RECORDS;
use reference::problem::{BANNED, CELLS, FREE, MAX_VERTICES, NO_MARK, PINNED, Problem, STRIDE};
use reference::random::Random;
use reference::tally::Tally;
use reference::{access, families};

// What the program counts beside the faults.
const INSTANCES: u32 = 3;

const PRESSES: u32 = 4;

const ORDERS: u32 = 5;

fn after(b: Board, kind: Kind, first: u32, second: u32) -> Board {
    let c = Call::new(kind, first, second);
    calls::made(b, c).board
}

// The mark of an arc pressed, if it has one. With more, a budget is pressed before it, and another mark is pressed and
// taken back.
fn with_press(b: Board, p: Problem, tail: u32, head: u32, with_more: bool) -> Board {
    let mark = p.mark_of(tail, head);
    if mark == FREE || mark == NO_MARK {
        return b;
    }
    let is_pin = mark == PINNED;
    let kind = if is_pin { Kind::Pin } else { Kind::Ban };
    let other_kind = if is_pin { Kind::Ban } else { Kind::Pin };
    if !with_more {
        return after(b, kind, tail, head);
    }
    let budgeted = after(b, Kind::Budget, head, 0);
    let other = after(budgeted, other_kind, tail, head);
    after(after(other, Kind::TakeBack, 0, 0), kind, tail, head)
}

// All marks, upwards or downwards.
fn pressed(p: Problem, downwards: bool) -> Board {
    let mut q = p;
    q.marks = [FREE; CELLS];
    let mut b = boards::of_problem(q);
    for k in 0..CELLS as u32 {
        let at = if downwards { CELLS as u32 - 1 - k } else { k };
        b = with_press(b, p, at / STRIDE, at % STRIDE, downwards);
    }
    b
}

// Whether a board shows the tree of that look.
fn shows_tree(b: Board, s: Shown) -> bool {
    let other = calls::look(b);
    access::equal_fronts(&s.parents, &other.parents, MAX_VERTICES)
}

// A board with an arc of the tree banned, which has to be reported.
fn planted(tally: Tally, p: Problem, s: Shown, vertex: u32) -> Tally {
    let tail = access::byte(&s.parents, vertex);
    if !p.is_arc(tail, vertex) {
        return tally;
    }
    let other = p.with_mark(tail, vertex, BANNED);
    tally.planted(!shows_tree(boards::of_problem(other), s))
}

// Both orders.
fn tried(tally: Tally, p: Problem, vertex: u32) -> Tally {
    let s = calls::look(boards::of_problem(p));
    let up = pressed(p, false);
    let down = pressed(p, true);
    let presses = (up.count % (RECORDS + 1)) as u32;
    let t = tally.with(INSTANCES, 1).with(PRESSES, presses);
    let u = t.checked(ORDERS, shows_tree(up, s));
    let v = u.checked(ORDERS, shows_tree(down, s));
    planted(v, p, s, vertex)
}

fn run(count: u32) -> Tally {
    (0..count).fold(Tally::zero(), |t, k| {
        let vertex = Random::seeded(k).below(MAX_VERTICES);
        tried(t, families::nth_tied(k), vertex)
    })
}

pub fn all() {
    run(16).report(
        b"instances of 32 with many cheapest trees\nmarks pressed\norders of the presses\n",
    );
}
