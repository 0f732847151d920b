// Instances of 32 vertices.
use crate::problem::{CELLS, MAX_VERTICES, MAX_WEIGHT, NO_ARC, Problem, STRIDE};
use crate::random::Random;
use crate::sample::Mixture;
use crate::{problem, sample, worked};

const LAST: u32 = MAX_VERTICES - 1;

// Arcs both ways between neighbours from 1 to the last, dearer as the numbers grow: 1 and 2 close the first cycle,
// which 3 joins, and so on, so that the cycles lie within one another; and arcs from vertex 0, the root, to every
// vertex from one on.
fn nested(entered_from: u32) -> Problem {
    let mut p = worked::without_arcs(MAX_VERTICES, 0, 0);
    for k in 1..MAX_VERTICES {
        if k < LAST {
            p = p.with_weight(k, k + 1, 100 * k + 100);
            p = p.with_weight(k + 1, k, 100 * k + 100);
        }
        if entered_from <= k {
            p = p.with_weight(0, k, 90000);
        }
    }
    p
}

fn mixed(k: u32, weights: u32, missing: u32, pinned: u32, banned: u32) -> Problem {
    let mix = Mixture {
        weights,
        missing,
        pinned,
        banned,
    };
    sample::instance(
        Random::seeded(k),
        MAX_VERTICES,
        k % MAX_VERTICES * 5 % MAX_VERTICES,
        mix,
    )
}

// How many families nth_instance begins with.
pub const FAMILIES: u32 = 12;

// Nested cycles, with a way in at every vertex, at the one that joins last, and at none: there the set that no arc
// enters is found only after every cycle was drawn together. Dense ones with any weights, with ties, and with all
// weights equal; sparse ones; and then every mixture.
pub fn nth_instance(k: u32) -> Problem {
    match k {
        0 => nested(1),
        1 => nested(LAST),
        2 => nested(MAX_VERTICES),
        3 => mixed(3, 2, 0, 0, 0),
        4 => mixed(4, 1, 0, 0, 4),
        5 => mixed(5, 3, 0, 0, 0),
        6 => mixed(6, 2, 54, 0, 0),
        7 => mixed(7, 0, 48, 0, 2),
        8 => mixed(8, 5, 20, 0, 8),
        9 => mixed(9, 4, 10, 1, 6),
        10 => mixed(10, 2, 60, 0, 0),
        11 => mixed(11, 2, 8, 0, 30),
        _ => mixed(k, k % 6, k % 60, 0, k % 24),
    }
}

// Vertices under other numbers: 13 is odd, so each of the 32 is one of them.
fn renumbered_vertex(v: u32) -> u32 {
    (v % MAX_VERTICES * 13 + 7) % MAX_VERTICES
}

fn renumbered(p: Problem) -> Problem {
    let mut q = p;
    q.root = renumbered_vertex(p.root);
    for k in 0..CELLS as u32 {
        let tail = renumbered_vertex(k / STRIDE);
        let at = problem::cell(tail, renumbered_vertex(k % STRIDE));
        q.weights[at] = p.weights[k as usize];
        q.marks[at] = p.marks[k as usize];
    }
    q
}

// The weight between two vertices by the highest bit where their numbers differ: pairs, pairs of pairs, and so on.
fn weight_between(tail: u32, head: u32) -> u32 {
    let bits = tail ^ head;
    if bits < 2 {
        return 1;
    }
    if bits < 4 {
        return 10;
    }
    if bits < 8 {
        return 100;
    }
    if bits < 16 { 1000 } else { 10000 }
}

fn clustered(p: Problem) -> Problem {
    let mut q = p;
    for (k, weight) in (0u32..).zip(&mut q.weights) {
        if *weight < NO_ARC {
            *weight = weight_between(k / STRIDE, k % STRIDE);
        }
    }
    q
}

// Instances with many cheapest trees: nested cycles that may be entered at many vertices at the same cost, in order and
// renumbered; all weights equal, dense and sparse; few distinct weights; the two ends of the range; mostly 0; clusters
// within clusters.
pub fn nth_tied(k: u32) -> Problem {
    match k % 8 {
        0 => nested(k.wrapping_add(1)),
        1 => renumbered(nested(k)),
        2 => mixed(k, 3, 0, 0, 0),
        3 => mixed(k, 3, 46, 1, 2),
        4 => mixed(k, 0, 44, 0, 2),
        5 => mixed(k, 4, 40, 0, 4),
        6 => mixed(k, 5, 48, 1, 2),
        _ => clustered(mixed(k, 3, k.wrapping_add(k), 0, 0)),
    }
}

// The greatest weight of an instance.
fn greatest_in(p: &Problem) -> u32 {
    (0u32..)
        .zip(&p.weights)
        .filter(|(k, _)| p.is_arc(k / STRIDE, k % STRIDE))
        .map(|(_, &weight)| weight)
        .max()
        .unwrap_or(0)
}

// Each weight raised by so much, and then to the least.
fn reweighted(p: Problem, more: u32, least: u32) -> Problem {
    let mut q = p;
    for (k, weight) in (0u32..).zip(&mut q.weights) {
        if p.is_arc(k / STRIDE, k % STRIDE) {
            *weight = weight.wrapping_add(more).max(least);
        }
    }
    q
}

// All weights raised alike, the greatest to the limit. Every tree has as many arcs, so the cheapest ones stay the
// cheapest, and the cycles close as before.
pub fn raised(p: Problem) -> Problem {
    reweighted(p, MAX_WEIGHT.wrapping_sub(greatest_in(&p)), 0)
}

// Every arc at the greatest weight.
pub fn at_greatest(p: Problem) -> Problem {
    reweighted(p, 0, MAX_WEIGHT)
}
