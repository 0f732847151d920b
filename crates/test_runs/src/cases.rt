// Refusals and graphs whose results are written out, from document 02's words, on standard input: the reference is held
// to them, and the product to the reference. A line "cells" has the count, the lengths of the two lists and the two
// buffers, and two cells of a graph with weight 5 everywhere that hold something else; it expects the answer. A
// line "graph" has the count, the budget, and the weight and mark of each pair; it expects the outcome, its total, and
// the state and replacement cost of each pair.
use crate::calls::{Call, Shown};
use crate::{calls, faults, judging};
use reference::script::Line;
use reference::tally::Tally;
use reference::{access, script};
use reference_runs::costs::NOT_IN_TREE;
use reference_runs::listing::MAX_LISTED;
use reference_runs::places;

// Where results that are written out are counted.
const WRITTEN_OUT: u32 = 3;

fn of_cells(line: Line) -> Call {
    let mut c = calls::even(line.number(1), 5, 0, 0);
    c.weights_length = line.number(2);
    c.marks_length = line.number(3);
    c.states_length = line.number(4);
    c.replacements_length = line.number(5);
    let mark = access::narrow(line.number(8));
    let other = access::narrow(line.number(11));
    let d = calls::with_cell(c, line.number(6), line.number(7), mark);
    calls::with_cell(d, line.number(9), line.number(10), other)
}

fn of_graph(line: Line) -> Call {
    let mut c = calls::even(line.number(1), 5, 0, 1100);
    c.budget = line.number(2);
    let mut from: u32 = 3;
    for cell in 0..places::cells(c.n) {
        if places::is_upper(c.n, cell) {
            let mark = access::narrow(line.number(from.wrapping_add(1)));
            c = calls::with_pair(c, cell, line.number(from), mark);
            from = from.wrapping_add(2);
        }
    }
    c
}

fn result(line: Line, n: u32) -> Shown {
    let mut s = calls::untouched(0, line.expected(1), line.expected(2));
    let mut from: u32 = 3;
    for cell in 0..places::cells(n) {
        if places::is_upper(n, cell) {
            let state = access::narrow(line.expected(from));
            let cost = line.expected(from.wrapping_add(1));
            s = calls::with_result(s, cell, state, cost);
            s = calls::with_result(s, places::mirror(n, cell), state, cost);
            from = from.wrapping_add(2);
        }
        if places::row(n, cell) == places::column(n, cell) {
            s = calls::with_result(s, cell, 0, NOT_IN_TREE);
        }
    }
    s
}

fn tried(tally: Tally, line: Line) -> Tally {
    if !line.expects {
        return tally;
    }
    let is_graph = line.first == b'g';
    let c = if is_graph {
        of_graph(line)
    } else {
        of_cells(line)
    };
    let e = calls::expected(c, c.n <= MAX_LISTED);
    let right = if is_graph {
        judging::is_right(result(line, c.n), e, c)
    } else {
        line.expected(1) == e.answer
    };
    let t = tally.checked(WRITTEN_OUT, right);
    faults::tried(t, WRITTEN_OUT, calls::by_product(c), e, c)
}

pub fn all(text: &[u8]) -> Tally {
    script::fold_lines(text, Tally::zero(), |t, line| tried(t, line))
}
