// Boards and the reference's instances.
use crate::records;
use board::Board;
use reference::history::RECORDS;
use reference::problem;
use reference::problem::{CELLS, Problem, STRIDE};

// A board with an instance and no record. The record places past the count hold rubbish, which nobody may look at.
pub fn of_problem(p: Problem) -> Board {
    let weights = p.weights;
    let marks = p.marks;
    let rubbish = records::mark_record(200, 201, 77);
    Board {
        n: p.n,
        root: p.root,
        budget: p.budget,
        weights,
        marks,
        records: [rubbish; RECORDS],
        count: 0,
    }
}

pub fn problem_of(b: Board) -> Problem {
    let weights = b.weights;
    let marks = b.marks;
    Problem {
        n: b.n,
        root: b.root,
        budget: b.budget,
        weights,
        marks,
    }
}

// Whether two instances are equal "where a link can be".
pub fn alike_problems(p: &Problem, q: &Problem) -> bool {
    p.n == q.n
        && p.root == q.root
        && p.budget == q.budget
        && (0..CELLS).all(|at| {
            let k = at as u32;
            !problem::can_hold(p.n, p.root, k / STRIDE, k % STRIDE)
                || p.weights[at] == q.weights[at] && p.marks[at] == q.marks[at]
        })
}

// Whether the first so many records are equal.
fn equal_records(a: &Board, b: &Board, count: usize) -> bool {
    a.records
        .iter()
        .zip(&b.records)
        .take(count)
        .all(|(x, y)| records::equal(*x, *y))
}

// Whether a board is as it was, in every cell and every bit of every record place: what a refusal leaves.
pub fn identical(a: Board, b: Board) -> bool {
    a.count == b.count && equal_records(&a, &b, RECORDS) && problem_of(a) == problem_of(b)
}

// Whether two boards have the same in every cell and the same history. "record places past the count" are not compared.
pub fn equal(a: Board, b: Board) -> bool {
    a.count == b.count && equal_records(&a, &b, a.count) && problem_of(a) == problem_of(b)
}

// Whether two boards are the same wherever somebody may look: their sizes, roots and budgets, where a link can be, and
// their histories.
pub fn alike(a: Board, b: Board) -> bool {
    a.count == b.count
        && equal_records(&a, &b, a.count)
        && alike_problems(&problem_of(a), &problem_of(b))
}
