// Document 01's worked instances: sheet Q and the small ones beside it.
use crate::access::narrow;
use crate::card;
use crate::card::{CARD_ROOM, Card};
use crate::problem::{CELLS, NO_ARC, Problem};

// An instance without any arc.
pub fn without_arcs(n: u32, root: u32, budget: u32) -> Problem {
    Problem {
        n,
        root,
        budget,
        weights: [NO_ARC; CELLS],
        marks: [0; CELLS],
    }
}

// "n = 4, root 0. Prices: 0→1 10, 0→2 10, 0→3 8, 1→2 1, 1→3 4, 2→1 2, 2→3 9, 3→1 7; 3→2 is no link."
pub fn q(budget: u32) -> Problem {
    without_arcs(4, 0, budget)
        .with_weight(0, 1, 10)
        .with_weight(0, 2, 10)
        .with_weight(0, 3, 8)
        .with_weight(1, 2, 1)
        .with_weight(1, 3, 4)
        .with_weight(2, 1, 2)
        .with_weight(2, 3, 9)
        .with_weight(3, 1, 7)
}

// "n = 2, price 5", with root 0.
pub fn two(budget: u32) -> Problem {
    without_arcs(2, 0, budget).with_weight(0, 1, 5)
}

// The instance that a line of a script names: sheet Q, two positions or one.
pub fn instance_named(name: u8, budget: u32) -> Problem {
    match name {
        b'Q' => q(budget),
        b'T' => two(budget),
        _ => without_arcs(1, 0, budget),
    }
}

// The card of an instance with this price and mark from 0 to 1, with a filling bit at its end, and cut or continued to
// a length.
pub fn card(p: Problem, weight: u32, mark: u32, filling: u32, length: u32) -> Card {
    let q = p.with_weight(0, 1, weight).with_mark(0, 1, narrow(mark));
    let mut c = card::build(q);
    let last = (c.length.wrapping_sub(1) % CARD_ROOM as u32) as usize;
    c.bytes[last] |= narrow(filling);
    c.length = length;
    c
}
