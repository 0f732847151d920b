// The walk of document 02, A7, that lists every feed tree within marks and budget: what it has to give for a sheet, a
// try limit and a lent buffer. It is one loop over the present feeders, as an odometer goes: on to the next position
// where a link closes no ring, and back where no link is left. A table holds the prices of the remaining links
// (problem::costs).
use crate::access::{byte, front, narrow, put};
use crate::problem;
use crate::problem::{ABSENT, CELLS, MAX_VERTICES};
use crate::refusals::BAD_TRY_LIMIT;
use crate::shown::NO_PARENT;

// "26 for a try limit of 0 or above 1,000,000".
pub const MAX_TRIES: u32 = 1000000;

// "The walk ends complete, at the try limit, or before the first tree without room".
#[derive(Clone, Copy, PartialEq, Eq)]
pub enum Ended {
    Complete,
    AtLimit,
    NoRoom,
}

// More steps than any walk has: each makes a try, goes back from one, or is the last.
const STEPS: u32 = 2 * MAX_TRIES + 2;

// How the walk ended, if it has; how many trees stand in the buffer, in how many bytes, after how many tries. And the
// beginning that it is at: how many positions beside the root are settled, and their feeders. The other positions have
// none, but the next one has the feeder that was tried last, if it was.
#[derive(Clone, Copy)]
pub struct Walk {
    pub ended: Option<Ended>,
    pub trees: u32,
    pub length: u32,
    pub tries: u32,
    pub settled: u32,
    pub parents: [u8; MAX_VERTICES as usize],
}

// The next feeder of a position, if a link is left. After none comes 0: 255 and one more is 0 in a byte.
fn next_tail(table: &[u32; CELLS], n: u32, position: u32, present: u8) -> Option<u32> {
    (u32::from(present.wrapping_add(1))..n).find(|&tail| table[problem::cell(tail, position)]
        != ABSENT)
}

// Whether the feeders lead from a position back to it. They end at the root and at a position not yet settled.
fn closes_cycle(parents: &[u8], position: u32) -> bool {
    let mut at = byte(parents, position);
    for step in 0..MAX_VERTICES {
        if at == position {
            return true;
        }
        at = byte(parents, at);
    }
    false
}

// "Its total is the sum of its prices."
fn total(table: &[u32; CELLS], parents: &[u8], n: u32) -> u32 {
    let mut sum: u32 = 0;
    for position in 0..n {
        let tail = byte(parents, position);
        if tail != u32::from(NO_PARENT) {
            sum = sum.wrapping_add(table[problem::cell(tail, position)]);
        }
    }
    sum
}

// Back to the position settled last, whose next link is due. Before the first there is none: the walk is complete.
fn back(w: Walk) -> Walk {
    let mut next = w;
    if w.settled == 0 {
        next.ended = Some(Ended::Complete);
        return next;
    }
    next.settled = w.settled - 1;
    next
}

// The next try. Links are tried upwards, so the trees come "in ascending order of the feeder list". "The limit ends a
// walk only when one more try is due."
fn tried(table: &[u32; CELLS], n: u32, root: u32, limit: u32, w: Walk) -> Walk {
    let mut next = w;
    let position = if w.settled < root {
        w.settled
    } else {
        w.settled.wrapping_add(1)
    };
    let at = (position % MAX_VERTICES) as usize;
    let Some(tail) = next_tail(table, n, position, w.parents[at]) else {
        next.parents[at] = NO_PARENT;
        return back(next);
    };
    if w.tries == limit {
        next.ended = Some(Ended::AtLimit);
        return next;
    }
    next.tries = w.tries.wrapping_add(1);
    next.parents[at] = narrow(tail);
    if !closes_cycle(&next.parents, position) {
        next.settled = w.settled.wrapping_add(1);
    }
    next
}

// Where every position is settled there is a tree. One over the budget needs no room.
fn listed(table: &[u32; CELLS], n: u32, budget: u32, w: Walk, out: &mut [u8]) -> Walk {
    if w.settled.wrapping_add(1) != n {
        return w;
    }
    let mut next = back(w);
    if budget < total(table, &w.parents, n) {
        return next;
    }
    let length = w.length.wrapping_add(n);
    if out.len() < length as usize {
        next.ended = Some(Ended::NoRoom);
        return next;
    }
    put(out, w.length as usize, front(&w.parents, n as usize));
    next.length = length;
    next.trees = w.trees.wrapping_add(1);
    next
}

pub fn list(
    table: &[u32; CELLS], // the prices of the remaining links
    n: u32, // how many positions there are
    root: u32, // one of them
    budget: u32,
    limit: u32, // how many tries may be made
    out: &mut [u8], // takes the trees, n bytes each
) -> Result<Walk, u32> {
    if limit == 0 || MAX_TRIES < limit {
        return Err(BAD_TRY_LIMIT);
    }
    let start = Walk {
        ended: None,
        trees: 0,
        length: 0,
        tries: 0,
        settled: 0,
        parents: [NO_PARENT; MAX_VERTICES as usize],
    };
    // "For one position the empty tree is listed with no try."
    let mut w = listed(table, n, budget, start, out);
    for step in 0..STEPS {
        if w.ended.is_some() {
            return Ok(w);
        }
        w = listed(table, n, budget, tried(table, n, root, limit, w), out);
    }
    Ok(w)
}
