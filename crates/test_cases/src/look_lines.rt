// Lines on looks: outcomes, trees, cuts.
use harness::session::Session;
use harness::{calls, session};
use reference::problem::Problem;
use reference::script::Line;
use reference::trees::Listing;
use reference::{access, outcome, trees};

// The states of the arcs from a tail, as digits.
fn row(list: Listing, p: Problem, tail: u32) -> u32 {
    let mut digits: u32 = 0;
    let n = p.n;
    for head in 0..n {
        digits = digits
            .wrapping_mul(10)
            .wrapping_add(outcome::state(list, p, tail, head));
    }
    digits
}

// The rows that a line expects, from its second number on.
fn rows_right(line: Line, list: Listing, p: Problem) -> bool {
    let n = p.n;
    (0..n).all(|tail| row(list, p, tail) == line.expected(tail.wrapping_add(2)))
}

// The number of trees, every state, and the cheapest total if there is one.
fn listing_right(line: Line, p: Problem, kind: u32) -> bool {
    let table = p.costs();
    let list = trees::list(&table, p.n, p.root);
    outcome::kind(list, p.budget) == kind
        && list.trees == line.expected(1)
        && (kind == outcome::NONE || list.cheapest == line.expected(p.n.wrapping_add(2)))
        && rows_right(line, list, p)
}

// "plan: 12 trees, rows 0222 0022 0201 0200, total 15": the reference's listing is the line's, and the look is the
// listing's.
pub fn outcome_right(line: Line, s: Session, kind: u32) -> bool {
    listing_right(line, session::problem_now(s), kind) && session::look_right(s)
}

// "feeders: 255 0 1 1": the parents of the reference's first cheapest tree, and those that a look shows.
pub fn parents_right(line: Line, s: Session) -> bool {
    let board = s.board;
    let p = session::problem_now(s);
    let table = p.costs();
    let list = trees::list(&table, p.n, p.root);
    if !line.expects_bytes(&list.first) {
        return false;
    }
    let shown = calls::look(board);
    line.expects_bytes(&shown.parents)
}

// "set and amount: 2 0": the first pair that a look shows.
pub fn set_right(line: Line, s: Session) -> bool {
    let board = s.board;
    let shown = calls::look(board);
    access::word(&shown.cuts, 0) == line.expected(1)
        && access::word(&shown.cuts, 1) == line.expected(2)
}
