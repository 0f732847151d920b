// What a call has to show, by the least total of all spanning trees, of those with a run and of those without it.
use crate::answers::{BANNED, FREE, NO_RUN, PINNED};
use crate::places::entry;
use crate::{kruskal, listing, places};

pub const CELLS: usize = 1024;

// "4,294,967,295 if there is none or the run is pinned"
pub const NO_REPLACEMENT: u32 = 4294967295;

// "the prices 4,294,967,294 for whatever is not in the tree"
pub const NOT_IN_TREE: u32 = 4294967294;

// The states by "the same four codes".
pub const NOT_A_RUN: u8 = 0;

pub const CLOSED: u8 = 1;

pub const OPEN: u8 = 2;

pub const SURE: u8 = 3;

// The least total, if there is a tree, and what the first n times n places of the buffers hold: every run has its
// replacement cost, whether or not the tree uses it.
#[derive(Clone, Copy)]
pub struct Costs {
    pub least: Option<u32>,
    pub states: [u8; CELLS],
    pub replacements: [u32; CELLS],
}

// The state of a run by the least totals with it and without it: "over trees within the larger of the budget and the
// cheapest total".
fn state(with: Option<u32>, without: Option<u32>, least: Option<u32>, budget: u32) -> u8 {
    let bound = least.map_or(budget, |total| total.max(budget));
    if with.is_none_or(|total| bound < total) {
        return CLOSED;
    }
    if without.is_none_or(|total| bound < total) {
        return SURE;
    }
    OPEN
}

// "the cheapest price increase of a tree without it"
fn replacement(without: Option<u32>, least: Option<u32>) -> u32 {
    match (without, least) {
        (_, None) => NOT_IN_TREE,
        (None, Some(_)) => NO_REPLACEMENT,
        (Some(total), Some(cheapest)) => total.wrapping_sub(cheapest),
    }
}

// The costs with a state and a replacement cost put for the run of a cell, "both ways alike".
fn put(c: Costs, n: u32, cell: u32, state: u8, replacement: u32) -> Costs {
    let mut next = c;
    let at = cell as usize % CELLS;
    let other = places::mirror(n, cell) as usize % CELLS;
    next.states[at] = state;
    next.states[other] = state;
    next.replacements[at] = replacement;
    next.replacements[other] = replacement;
    next
}

// Of a graph of up to 5 vertices, by listing.
pub fn by_listing(weights: &[u32], marks: &[u8], n: u32, budget: u32) -> Costs {
    let totals = listing::totals(weights, marks, n);
    let least = listing::least(&totals, 0, 0);
    let mut c = Costs {
        least,
        states: [NOT_A_RUN; CELLS],
        replacements: [NOT_IN_TREE; CELLS],
    };
    let mut bit: u32 = 1;
    for cell in 0..places::cells(n) {
        if places::is_upper(n, cell) {
            let with = listing::least(&totals, bit, bit);
            let without = listing::least(&totals, bit, 0);
            bit = bit.wrapping_mul(2);
            if entry(weights, cell) != NO_RUN {
                let cost = replacement(without, least);
                c = put(c, n, cell, state(with, without, least, budget), cost);
            }
        }
    }
    c
}

// The marks with another one in a cell.
fn marked(marks: &[u8], cell: u32, mark: u8) -> [u8; CELLS] {
    let mut other = [FREE; CELLS];
    for (place, &before) in other.iter_mut().zip(marks) {
        *place = before;
    }
    other[cell as usize % CELLS] = mark;
    other
}

// The least total where the run of a cell has that mark, which one that has the opposite mark never gets.
fn least_as(
    weights: &[u32],
    marks: &[u8],
    n: u32,
    cell: u32,
    mark: u8,
    opposite: u8,
) -> Option<u32> {
    if entry(marks, cell) == opposite {
        return None;
    }
    kruskal::least(weights, &marked(marks, cell, mark), n)
}

// Of a graph of up to 32 vertices, by Kruskal's algorithm.
pub fn by_kruskal(weights: &[u32], marks: &[u8], n: u32, budget: u32) -> Costs {
    let least = kruskal::least(weights, marks, n);
    let mut c = Costs {
        least,
        states: [NOT_A_RUN; CELLS],
        replacements: [NOT_IN_TREE; CELLS],
    };
    for cell in 0..places::cells(n) {
        if places::is_upper(n, cell) && entry(weights, cell) != NO_RUN {
            let with = least_as(weights, marks, n, cell, PINNED, BANNED);
            let without = least_as(weights, marks, n, cell, BANNED, PINNED);
            let cost = replacement(without, least);
            c = put(c, n, cell, state(with, without, least, budget), cost);
        }
    }
    c
}
