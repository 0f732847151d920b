// Random graphs, as they are and damaged, each held to the reference.
use crate::calls::Call;
use crate::{calls, damage, faults, judging, making};
use reference::random::Random;
use reference::tally::Tally;
use reference_runs::listing::MAX_LISTED;

// Where the graphs that are both listed and planned are counted.
const LISTED: u32 = 4;

// The product's result of a call, held to the reference's; counted by its outcome or its answer.
fn compared(tally: Tally, c: Call) -> Tally {
    let e = calls::expected(c, c.n <= MAX_LISTED);
    let which = match e.answer {
        0 => e.outcome.wrapping_add(5),
        14 => 8,
        29 => 9,
        30 => 10,
        _ => 11,
    };
    faults::tried(tally, which, calls::by_product(c), e, c)
}

// A graph of 1 to 5 vertices, on which the reference's two ways have to agree.
fn tried_small(tally: Tally, k: u32) -> Tally {
    let c = making::call(k, k % MAX_LISTED + 1);
    let listed = calls::expected(c, true);
    let planned = calls::expected(c, false);
    let is_same = listed.outcome == planned.outcome && listed.total == planned.total;
    let agree = is_same && judging::are_right(listed, planned, c.n);
    compared(tally.checked(LISTED, agree), c)
}

// Each way of damage, alone and after another one.
fn tried_damages(tally: Tally, k: u32) -> Tally {
    let mut t = tally;
    let c = making::call(k, k % MAX_LISTED + 1);
    let mut g = Random::seeded(k.wrapping_add(2000000));
    for way in 0..damage::WAYS {
        let d = damage::damaged(c, g, way);
        g = g.next().next().next();
        t = compared(t, d);
        t = compared(t, damage::damaged(d, g, g.below(damage::WAYS)));
    }
    t
}

// Every third graph damaged too.
pub fn small(tally: Tally, count: u32) -> Tally {
    let mut t = tally;
    for k in 0..count {
        t = tried_small(t, k);
        if k % 3 == 2 {
            t = tried_damages(t, k);
        }
    }
    t
}

// Graphs of 6 to 31 vertices; every fourth one of 32.
pub fn large(tally: Tally, count: u32) -> Tally {
    (0..count).fold(tally, |t, k| {
        let n = if k % 4 == 3 {
            32
        } else {
            (k % 26).wrapping_add(6)
        };
        compared(t, making::call(k, n))
    })
}
