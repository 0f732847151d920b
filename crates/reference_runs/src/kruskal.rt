// The least total of a graph under its marks by Kruskal's algorithm: the pinned runs first, and then again and again
// the cheapest free run that joins two components.
use crate::answers::{FREE, NO_RUN, PINNED};
use crate::choice::Choice;
use crate::places;
use crate::places::entry;

fn pinned(weights: &[u32], marks: &[u8], n: u32) -> Option<Choice> {
    let mut c = Choice::empty();
    for cell in 0..places::cells(n) {
        if places::is_upper(n, cell) && entry(marks, cell) == PINNED {
            c = c.with(n, cell, entry(weights, cell), PINNED, true)?;
        }
    }
    Some(c)
}

// Whether a cell has a free run that joins two components.
fn joins(c: &Choice, marks: &[u8], n: u32, cell: u32) -> bool {
    places::is_upper(n, cell)
        && entry(marks, cell) == FREE
        && entry(&c.labels, places::row(n, cell)) != entry(&c.labels, places::column(n, cell))
}

// The choice with the cheapest such run, the first of them, if there is one.
fn grown(c: Choice, weights: &[u32], marks: &[u8], n: u32) -> Choice {
    let mut best = NO_RUN;
    let mut at = 0;
    for cell in 0..places::cells(n) {
        let weight = entry(weights, cell);
        if weight < best && joins(&c, marks, n, cell) {
            best = weight;
            at = cell;
        }
    }
    c.with(n, at, best, FREE, true).unwrap_or(c)
}

// The least total, if there is a tree.
pub fn least(weights: &[u32], marks: &[u8], n: u32) -> Option<u32> {
    let mut c = pinned(weights, marks, n)?;
    for k in 1..n {
        c = grown(c, weights, marks, n);
    }
    c.tree_total(n)
}
