// Sheets of 32 positions: as they are, where most walks end at the limit or for lack of room; and with most positions
// pinned to their feeders in a cheapest tree, where a walk can be complete.
use crate::given::ROOM;
use crate::{cases, faults, given};
use harness::boards;
use reference::certificate::Certificate;
use reference::problem::{ABSENT, MAX_BUDGET, MAX_VERTICES, PINNED, Problem};
use reference::random::Random;
use reference::tally::Tally;
use reference::walk::MAX_TRIES;
use reference::{access, dual, families, shown};

// The sheet with all positions but those of a set pinned to the feeders of a tree.
fn pinned(p: Problem, o: Certificate, free: u32) -> Problem {
    let mut q = p;
    for v in 0..MAX_VERTICES {
        if !shown::holds(free, v) {
            q = q.with_mark(access::byte(&o.parents, v), v, PINNED);
        }
    }
    q
}

// With all but three positions pinned, and a budget that some trees are within: as many tries as there may be, as many
// as were made then, and one less.
fn tried_pinned(tally: Tally, p: Problem, o: Certificate, g: Random) -> Tally {
    let h = g.next();
    let free = shown::only(g.below(MAX_VERTICES))
        | shown::only(h.below(MAX_VERTICES))
        | shown::only(h.next().below(MAX_VERTICES));
    let more = g.below(o.total / 4 + 2);
    let q = pinned(p, o, free).with_budget(o.total.wrapping_add(more) % (MAX_BUDGET + 1));
    let table = q.costs();
    let full = given::by_reference(&table, q, MAX_TRIES, ROOM as u32);
    let b = boards::of_problem(q);
    let t = cases::tried_call(tally, &table, b, MAX_TRIES, ROOM as u32);
    let t = cases::tried_call(t, &table, b, full.tries(), g.below(ROOM as u32));
    cases::tried_call(t, &table, b, full.tries().wrapping_sub(1), ROOM as u32)
}

// With the greatest budget, and with the cheapest total for a budget.
fn tried_large(tally: Tally, k: u32) -> Tally {
    let g = Random::seeded(k);
    let p = families::nth_instance(k);
    let table = p.costs();
    let o = dual::plan(&table, p.n, p.root);
    let t = tally.with(faults::SHEETS, 1);
    let all = boards::of_problem(p.with_budget(MAX_BUDGET));
    let t = cases::tried_call(t, &table, all, MAX_TRIES, ROOM as u32);
    let t = cases::tried_call(t, &table, all, g.below(9000), g.below(ROOM as u32));
    let tight = boards::of_problem(p.with_budget(o.total % (MAX_BUDGET + 1)));
    let limit = if k % 4 == 0 {
        MAX_TRIES
    } else {
        g.below(90000)
    };
    let t = cases::tried_call(t, &table, tight, limit, ROOM as u32);
    if o.total == ABSENT {
        return t;
    }
    tried_pinned(t, p, o, g)
}

pub fn all(count: u32) -> Tally {
    (0..count).fold(Tally::zero(), |t, k| tried_large(t, k))
}
