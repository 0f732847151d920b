// Random graphs: few distinct weights, so that there are many ties; missing runs, pins and bans; several shapes; and
// rubbish on the diagonal and behind the lists, which nobody may look at.
use crate::calls;
use crate::calls::Call;
use reference::random::Random;
use reference_runs::answers::{BANNED, FREE, NO_RUN, PINNED};
use reference_runs::{kruskal, places};

// How a graph is made: the kind of its weights, of 256 runs how many are missing, pinned and banned, and its shape.
#[derive(Clone, Copy)]
struct Mixture {
    weights: u32,
    missing: u32,
    pinned: u32,
    banned: u32,
    shape: u32,
}

// The more vertices, the fewer pins, or they would always close a cycle. Small graphs have all pairs.
fn nth_mixture(k: u32, n: u32) -> Mixture {
    let is_small = n < 6;
    Mixture {
        weights: k % 5,
        missing: k / 5 % 4 * 32,
        pinned: if is_small {
            k / 20 % 4 * 24
        } else {
            k / 20 % 4 * 3
        },
        banned: k / 80 % 4 * 24,
        shape: if is_small { 0 } else { k % 3 },
    }
}

// A weight of one of five kinds: tiny, small, any, the two ends of the range, all equal.
fn some_weight(g: Random, kind: u32) -> u32 {
    match kind {
        0 => g.below(4),
        1 => g.below(12),
        2 => g.below(NO_RUN),
        3 => if g.below(2) == 0 { 0 } else { 1048574 },
        _ => 7,
    }
}

// Whether a shape has a pair: all pairs; a grid with rows of 8, each joined to the next; two groups with a bridge.
fn has_pair(shape: u32, a: u32, b: u32) -> bool {
    match shape {
        1 => a.wrapping_add(1) == b || a.wrapping_add(8) == b,
        2 => a % 2 == b % 2 || a.wrapping_add(b) == 1,
        _ => true,
    }
}

// The call with a pair made, or missing.
fn with_some_pair(c: Call, cell: u32, g: Random, mix: Mixture) -> Call {
    let is_there = has_pair(mix.shape, places::row(c.n, cell), places::column(c.n, cell));
    if !is_there || g.below(256) < mix.missing {
        return calls::with_pair(c, cell, NO_RUN, FREE);
    }
    let x = g.next().next().below(256);
    let other = if x < mix.pinned.wrapping_add(mix.banned) {
        BANNED
    } else {
        FREE
    };
    let mark = if x < mix.pinned { PINNED } else { other };
    calls::with_pair(c, cell, some_weight(g.next(), mix.weights), mark)
}

// The k-th graph of n vertices, with budget 0; every other one with just as much of lists and buffers as it needs.
fn graph(k: u32, n: u32) -> Call {
    let room = if k % 2 == 0 { 1100 } else { places::cells(n) };
    let mut c = calls::even(n, 3999999999, 77, room);
    let mut g = Random::seeded(k);
    let mix = nth_mixture(g.below(320), n);
    for cell in 0..places::cells(n) {
        if places::is_upper(n, cell) {
            g = g.next().next().next();
            c = with_some_pair(c, cell, g, mix);
        }
    }
    c
}

// That graph with a budget by the cheapest total, or by the greatest number without a tree: 0, one less, just that,
// some more, any, the greatest.
pub fn call(k: u32, n: u32) -> Call {
    let mut c = graph(k, n);
    let weights = c.weights;
    let marks = c.marks;
    let least = kruskal::least(&weights, &marks, n).unwrap_or(4294967295);
    let g = Random::seeded(k.wrapping_add(1000000));
    let kind = g.below(7);
    c.budget = match kind {
        0 => 0,
        1 => least.wrapping_sub(1),
        2 => least,
        3 => least.wrapping_add(1),
        4 => least.wrapping_add(k % 8),
        5 => g.next().word(),
        _ => 4294967295,
    };
    c
}
