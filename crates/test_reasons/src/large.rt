// Boards of 6 to 32 vertices, whose trees are not listed: some arcs of each, judged by what their trees and cuts prove,
// by the reference's planner, and by a look at the board with the arc pinned or banned, which has to show the same
// tree.
use crate::calls::Given;
use crate::{asked, calls, sessions};
use board::Board;
use harness::calls::Shown;
use harness::session;
use harness::session::Session;
use reference::call::{Call, Kind};
use reference::outcome::NONE;
use reference::problem::{CELLS, MAX_BUDGET, PINNED, Problem};
use reference::random::Random;
use reference::sample::Mixture;
use reference::tally::Tally;
use reference::{access, dual, families, sample};
use reference_reasons::due::Reason;

// The counts of looks with the arc pinned, and banned.
const PINNED_LOOKS: u32 = 50;

const BANNED_LOOKS: u32 = 51;

fn same_tree(s: Shown, g: Given, n: u32) -> bool {
    access::equal_fronts(&s.parents, &g.parents, n)
}

// Whether a look at the board after a press shows the plan that a call gave: the outcome, the total and the tree.
fn same_as_look(b: Board, kind: Kind, tail: u32, head: u32, g: Given) -> bool {
    let made = harness::calls::made(b, Call::new(kind, tail, head));
    let s = harness::calls::look(made.board);
    let Ok(Reason::Priced(outcome, total)) = g.reason else {
        return false;
    };
    made.answer == 0
        && s.kind == outcome
        && (s.kind == NONE || s.total == total)
        && same_tree(s, g, b.n)
}

// A pinned arc is the only one into its head; a banned one is taken out, unless its own pin kept others out.
fn tried_looks(tally: Tally, b: Board, p: Problem, tail: u32, head: u32) -> Tally {
    let both = calls::ask(b, tail, head, false);
    let mut t = tally;
    if both.why.total().is_some() {
        let right = same_as_look(b, Kind::Pin, tail, head, both.why);
        t = t.checked(PINNED_LOOKS, right);
    }
    if p.mark_of(tail, head) == PINNED {
        return t;
    }
    let right = same_as_look(b, Kind::Ban, tail, head, both.without);
    t.checked(BANNED_LOOKS, right)
}

// Half of the arcs are of the tree that the look shows. The root has none there.
fn some_tail(look: Shown, n: u32, head: u32, g: Random) -> u32 {
    if g.below(2) == 0 {
        return access::byte(&look.parents, head);
    }
    g.next().below(n)
}

fn tried_arc(
    tally: Tally,
    s: Session,
    table: &[u32; CELLS],
    p: Problem,
    look: Shown,
    g: Random,
) -> Tally {
    let head = g.below(p.n);
    let tail = some_tail(look, p.n, head, g.next());
    if !p.is_arc(tail, head) {
        return tally;
    }
    let t = asked::tried(tally, s, table, p, look, tail, head, g);
    tried_looks(t, s.board, p, tail, head)
}

fn tried_arcs(tally: Tally, s: Session, seed: u32, count: u32) -> Tally {
    let p = session::problem_now(s);
    let table = p.costs();
    let look = harness::calls::look(s.board);
    (0..count).fold(tally, |t, k| {
        let g = Random::seeded(seed.wrapping_add(k));
        tried_arc(t, s, &table, p, look, g)
    })
}

// Every third instance is of a family of 32 vertices, the others have 6 to 31.
fn nth_instance(k: u32) -> Problem {
    let mix = Mixture {
        weights: k % 6,
        missing: k % 32,
        pinned: k % 2,
        banned: k % 8,
    };
    if k % 3 == 0 {
        return families::nth_instance(k / 3);
    }
    let n = k % 26 + 6;
    sample::instance(Random::seeded(k), n, k % n, mix)
}

// The instance with a budget a little above its cheapest total.
fn with_budget(p: Problem, g: Random) -> Problem {
    let table = p.costs();
    let plan = dual::plan(&table, p.n, p.root);
    let total = plan.total % (MAX_BUDGET + 1);
    let budget = total.wrapping_add(g.below(total / 8 + 2));
    p.with_budget(if MAX_BUDGET < budget { 60 } else { budget })
}

fn tried(tally: Tally, k: u32) -> Tally {
    let g = Random::seeded(k);
    let p = with_budget(nth_instance(k), g);
    let progress = sessions::nth(tally, p, k, k % 8);
    tried_arcs(progress.tally, progress.session, k.wrapping_mul(64), 4)
}

pub fn run(count: u32) -> Tally {
    (0..count).fold(Tally::zero(), |t, k| tried(t, k))
}
