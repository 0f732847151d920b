// Instances of 32 vertices: dense, sparse, nested cycles, all weights equal. The shown tree and the cuts prove the
// total; the states are held to what follows from the shown tree and the cuts, for some arcs to looks with that arc
// pinned and banned; tree and states one below the cheapest total to those at it.
use crate::{exact, planted};
use harness::calls::Shown;
use harness::verdict;
use harness::verdict::Wrong;
use reference::problem::{CELLS, MAX_BUDGET, MAX_VERTICES, MAX_WEIGHT, Problem};
use reference::random::Random;
use reference::tally::Tally;
use reference::{access, families, outcome, problem};

// What the program counts beside the faults: the kinds of a look have a count each.
const INSTANCES: u32 = 3;

const LOOKS: u32 = 4;

const KINDS: u32 = 5;

const ARCS: u32 = 8;

const OVERS: u32 = 9;

// Whether the kind is that of a total under a budget; there is nothing to say of one without a tree.
fn kind_right(kind: u32, total: u32, budget: u32) -> bool {
    match kind {
        outcome::PLAN => total <= budget,
        outcome::OVER => budget < total,
        outcome::NONE => true,
        _ => false,
    }
}

// Whether a look is proved right by its own tree and cuts, and its states fit them.
fn is_right(p: Problem, s: Shown) -> bool {
    if !kind_right(s.kind, s.total, p.budget) {
        return false;
    }
    let table = p.costs();
    if verdict::certified(&table, p.n, p.root, s).is_err() {
        return false;
    }
    exact::states_fit(&table, p, s)
}

// A look that is over the budget, with the faults that document 02, A2 does away with: no tree, and every arc closed.
fn with_over_faults(tally: Tally, p: Problem, s: Shown) -> Tally {
    if s.kind != outcome::OVER {
        return tally;
    }
    let table = p.costs();
    let bare = planted::without_tree(s, p.n);
    let t = tally.planted(verdict::certified(&table, p.n, p.root, bare) == Err(Wrong::Parents));
    t.planted(!exact::states_fit(&table, p, planted::all_closed(s)))
}

// An arc that its reduced price closes, shown open: that has to be reported.
fn with_opened(tally: Tally, p: Problem, s: Shown) -> Tally {
    if s.kind == outcome::NONE {
        return tally;
    }
    let table = p.costs();
    match exact::first_priced_out(&table, p, s) {
        Some(at) => tally.planted(!exact::states_fit(&table, p, planted::with_state(s, at))),
        None => tally,
    }
}

fn with_look(tally: Tally, p: Problem, s: Shown) -> Tally {
    let t = tally.with(KINDS.wrapping_add(s.kind), 1);
    let u = t.checked(LOOKS, is_right(p, s));
    with_opened(with_over_faults(u, p, s), p, s)
}

// One arc that the generator picks, exactly.
fn with_arc(tally: Tally, p: Problem, s: Shown, g: Random) -> Tally {
    let tail = g.below(MAX_VERTICES);
    let head = g.next().below(MAX_VERTICES);
    tally.checked(ARCS, exact::arc_right(p, s, tail, head))
}

// A look under a budget; then two arcs exactly.
fn tried(tally: Tally, p: Problem, budget: u32, g: Random) -> Tally {
    let q = p.with_budget(budget);
    let s = exact::look_at(q);
    let t = with_look(tally, q, s);
    let u = with_arc(t, q, s, g);
    with_arc(u, q, s, g.next().next())
}

// A plan held to the instance with one of its arcs dearer by 1, or cheaper where it has the dearest weight: that has to
// be reported, or the test could not fail.
fn with_changed_weight(tally: Tally, p: Problem, s: Shown, vertex: u32) -> Tally {
    if vertex == p.root {
        return tally;
    }
    let tail = access::byte(&s.parents, vertex);
    let weight = p.weights[problem::cell(tail, vertex)];
    let other = if weight < MAX_WEIGHT {
        weight.wrapping_add(1)
    } else {
        MAX_WEIGHT - 1
    };
    let changed = p.with_weight(tail, vertex, other);
    tally.planted(!is_right(changed, s))
}

// A look under a budget that is within the limit.
fn tried_within(tally: Tally, p: Problem, budget: u32, g: Random) -> Tally {
    if MAX_BUDGET < budget {
        return tally;
    }
    tried(tally, p, budget, g)
}

// "when over budget, the states are to be those for a budget equal to the cheapest total" (02, A2): all of them, one
// below that total; and the tree, which "depends on root, marks and prices alone" (02, A10). One changed state has to
// be reported, and one changed parent.
fn tried_over(tally: Tally, p: Problem, total: u32, g: Random) -> Tally {
    if total == 0 {
        return tally;
    }
    let t = tried(tally, p, total - 1, g);
    let at_total = exact::look_at(p.with_budget(total));
    let below = exact::look_at(p.with_budget(total - 1));
    let u = t.checked(OVERS, exact::same_shown(at_total, below));
    let wrong = planted::with_state(below, g.below(CELLS as u32));
    let v = u.planted(!exact::same_shown(at_total, wrong));
    let other = planted::with_parent(below, g.below(MAX_VERTICES), MAX_VERTICES);
    v.planted(!exact::same_shown(at_total, other))
}

// Budgets at the cheapest total, one above, somewhat above, and one below.
fn tried_around(tally: Tally, p: Problem, total: u32, g: Random) -> Tally {
    let t = tried(tally, p, total, g);
    let u = tried_within(t, p, total.wrapping_add(1), g);
    let v = tried_within(u, p, total.wrapping_add(total / 64), g.next());
    tried_over(v, p, total, g)
}

// The cheapest total from a look under the largest budget, and then budgets around it.
pub fn tried_all(tally: Tally, p: Problem, g: Random) -> Tally {
    let q = p.with_budget(MAX_BUDGET);
    let s = exact::look_at(q);
    let t = with_look(tally.with(INSTANCES, 1), q, s);
    if s.kind != outcome::PLAN {
        return t;
    }
    tried_around(
        with_changed_weight(t, q, s, g.below(MAX_VERTICES)),
        p,
        s.total,
        g,
    )
}

fn run(count: u32) -> Tally {
    (0..count).fold(Tally::zero(), |t, k| {
        let g = Random::seeded(k);
        tried_all(t, families::nth_instance(k), g)
    })
}

pub fn all() {
    run(240).report(
        b"instances of 32\nlooks\nplan\nover\nnone\narcs looked at singly\nover held to the cheapest total\n",
    );
}
