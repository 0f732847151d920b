// Random instances: few distinct weights, so that there are many ties and zeros; missing arcs, pins and bans; and
// rubbish in the cells that can hold no arc, which nobody may look at.
use crate::problem;
use crate::problem::{
    BANNED, CELLS, FREE, MAX_BUDGET, MAX_WEIGHT, NO_ARC, PINNED, Problem, STRIDE,
};
use crate::random::Random;

// How an instance is made: the kind of its weights, and of 64 cells how many are missing, pinned and banned.
#[derive(Clone, Copy)]
pub struct Mixture {
    pub weights: u32,
    pub missing: u32,
    pub pinned: u32,
    pub banned: u32,
}

// A mixture for each number from 0 to 63.
fn nth_mixture(k: u32) -> Mixture {
    Mixture {
        weights: k % 6,
        missing: k / 4 % 4 * 9,
        pinned: k % 4 * 3,
        banned: k / 16 % 4 * 4,
    }
}

// A weight of one of six kinds: tiny, small, any, all equal, the two ends of the range, mostly 0.
fn some_weight(g: Random, kind: u32) -> u32 {
    match kind {
        0 => g.below(4),
        1 => g.below(12),
        2 => g.below(MAX_WEIGHT + 1),
        3 => 7,
        4 => if g.below(2) == 0 { 0 } else { MAX_WEIGHT },
        _ => g.below(3) / 2,
    }
}

// A mark: pinned or banned as often as the mixture says.
fn some_mark(g: Random, mix: Mixture) -> u8 {
    if g.below(64) < mix.pinned {
        return PINNED;
    }
    if g.next().below(64) < mix.banned {
        return BANNED;
    }
    FREE
}

// What a cell holds.
#[derive(Clone, Copy)]
struct Cell {
    weight: u32,
    mark: u8,
}

fn some_cell(g: Random, mix: Mixture) -> Cell {
    if g.below(64) < mix.missing {
        return Cell {
            weight: NO_ARC,
            mark: FREE,
        };
    }
    Cell {
        weight: some_weight(g.next(), mix.weights),
        mark: some_mark(g.next().next(), mix),
    }
}

// The instance of n vertices that the generator gives.
pub fn instance(seed: Random, n: u32, root: u32, mix: Mixture) -> Problem {
    let mut p = Problem {
        n,
        root,
        budget: 0,
        weights: [3999999999; CELLS],
        marks: [77; CELLS],
    };
    let mut g = seed;
    for k in 0..CELLS as u32 {
        if problem::can_hold(n, root, k / STRIDE, k % STRIDE) {
            let c = some_cell(g, mix);
            g = g.next().next().next().next();
            let at = k as usize;
            p.weights[at] = c.weight;
            p.marks[at] = c.mark;
        }
    }
    p
}

// The k-th instance of 1 to 6 vertices: each root in turn, and a small budget.
pub fn small_instance(k: u32) -> Problem {
    let g = Random::seeded(k);
    let n = k % 6 + 1;
    let mut p = instance(g.next(), n, k / 6 % n, nth_mixture(g.below(64)));
    p.budget = g.below(40);
    p
}

// An instance of n vertices that the generator gives, with any root and any budget.
pub fn any_instance(g: Random, n: u32) -> Problem {
    let h = g.next();
    let mut p = instance(h, n, h.below(n), nth_mixture(g.below(64)));
    p.budget = h.next().below(MAX_BUDGET + 1);
    p
}
