// Random small instances, held to the listing of all their trees: kind, total, the first cheapest tree, cuts and every
// state, with budgets at, just below and just above the cheapest total and the totals with one arc forced.
use crate::planted;
use harness::calls::Shown;
use harness::verdict::Wrong;
use harness::{boards, calls, verdict};
use reference::problem::{ABSENT, CELLS, MAX_BUDGET, Problem};
use reference::random::Random;
use reference::tally::Tally;
use reference::trees::Listing;
use reference::{access, outcome, sample, trees};

// What the program counts beside the faults: the kinds of a look and the states have a count each.
const INSTANCES: u32 = 3;

const TREES: u32 = 4;

const LOOKS: u32 = 5;

const KINDS: u32 = 6;

const STATES: u32 = 9;

const SEVERAL: u32 = 13;

// The tally with the states of a look.
fn with_states(tally: Tally, states: &[u8]) -> Tally {
    let mut t = tally;
    for &state in states {
        t = t.with(STATES + u32::from(state) % 4, 1);
    }
    t
}

// A look that is over the budget, with the faults that document 02, A2 does away with: no tree, and every arc closed.
fn with_over_faults(
    tally: Tally,
    table: &[u32; CELLS],
    list: Listing,
    p: Problem,
    s: Shown,
) -> Tally {
    if s.kind != outcome::OVER {
        return tally;
    }
    let bare = planted::without_tree(s, p.n);
    let t = tally.planted(verdict::against(table, list, p, bare) == Err(Wrong::Parents));
    let closed = planted::all_closed(s);
    t.planted(verdict::against(table, list, p, closed) == Err(Wrong::States))
}

// The last of several cheapest trees in the place of the first: the cuts prove it cheapest, so that it is not the first
// is all that can be reported, and has to be (02, A10).
fn with_last_tree(
    tally: Tally,
    table: &[u32; CELLS],
    list: Listing,
    p: Problem,
    s: Shown,
) -> Tally {
    let last = list.last;
    if outcome::is_first(list, &last, p.n) {
        return tally;
    }
    let other = planted::with_tree(s, last, p.n);
    tally.with(SEVERAL, 1).planted(verdict::against(table, list, p, other) == Err(Wrong::First))
}

// A look under a budget, judged, and judged again with a fault planted.
fn tried(tally: Tally, table: &[u32; CELLS], list: Listing, p: Problem, budget: u32) -> Tally {
    let q = p.with_budget(budget);
    let s = calls::look(boards::of_problem(q));
    let t = tally.checked(LOOKS, verdict::against(table, list, q, s).is_ok());
    let g = Random::seeded(t.count(LOOKS));
    let wrong = planted::with_fault(s, q.n, q.root, g);
    let u = t.planted(verdict::against(table, list, q, wrong).is_err());
    let v = with_over_faults(u, table, list, q, s);
    let w = with_last_tree(v, table, list, q, s);
    with_states(
        w.with(KINDS.wrapping_add(s.kind), 1),
        access::front(&s.states, q.n.wrapping_mul(q.n) as usize),
    )
}

// Looks at, just below and just above a total, if there is one.
fn tried_around(
    tally: Tally,
    table: &[u32; CELLS],
    list: Listing,
    p: Problem,
    total: u32,
) -> Tally {
    if total == ABSENT {
        return tally;
    }
    let t = tried(tally, table, list, p, total);
    let u = tried(t, table, list, p, total.wrapping_add(1));
    if total == 0 {
        return u;
    }
    tried(u, table, list, p, total - 1)
}

// The cheapest total with one arc forced in, or out.
fn forced_total(list: Listing, n: u32, g: Random) -> u32 {
    let h = g.next();
    let uses = h.next().below(3) != 0;
    let at = trees::place(g.below(n), h.below(n), uses);
    list.totals[at]
}

// Looks around totals with one arc forced, of four arcs, where that is not the cheapest total.
fn tried_forced(
    tally: Tally,
    table: &[u32; CELLS],
    list: Listing,
    p: Problem,
    seed: Random,
) -> Tally {
    let mut t = tally;
    let mut g = seed;
    for step in 0u32..4 {
        let total = forced_total(list, p.n, g);
        g = g.next().next().next();
        if total != list.cheapest {
            t = tried_around(t, table, list, p, total);
        }
    }
    t
}

// Looks around the cheapest total and the forced ones; where there is no tree, under any budget.
fn tried_all(tally: Tally, p: Problem, g: Random) -> Tally {
    let table = p.costs();
    let list = trees::list(&table, p.n, p.root);
    let t = tally.with(INSTANCES, 1).with(TREES, list.trees);
    if list.cheapest == ABSENT {
        return tried(t, &table, list, p, g.below(MAX_BUDGET + 1));
    }
    let u = tried_around(t, &table, list, p, list.cheapest);
    tried_forced(u, &table, list, p, g)
}

// Instances of 1 to 6 vertices, each root in turn.
fn run(count: u32) -> Tally {
    (0..count).fold(Tally::zero(), |t, k| {
        let g = Random::seeded(k);
        tried_all(t, sample::small_instance(k), g)
    })
}

pub fn all() {
    run(20000).report(
        b"small instances\ntrees listed\nlooks\nplan\nover\nnone\nstate 0:\nstate 1:\nstate 2:\nstate 3:\nlooks with several cheapest trees\n",
    );
}
