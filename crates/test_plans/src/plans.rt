// Plans of the reference's planner and of the planner itself, for small and large instances: as they are, with one
// thing changed, with two; and for a board with a tree's link banned, or with a price below what it is charged.
use crate::changes;
use crate::changes::Change;
use harness::calls::Shown;
use harness::{boards, calls};
use reference::certificate::Certificate;
use reference::problem::{ABSENT, BANNED, CELLS, MAX_BUDGET, Problem};
use reference::random::Random;
use reference::refusals::{
    BAD_CUT, BUFFER_SHORT, NOT_A_TREE, OVERCHARGED, WRONG_AMOUNTS, WRONG_TOTAL, number_of,
};
use reference::tally::Tally;
use reference::{access, certificate, dual, families, outcome, problem, sample, shown, trees};

// What is counted beside the faults: the answers have a count each.
const INSTANCES: u32 = 3;

const MADE: u32 = 4;

const OWN_PLANS: u32 = 5;

const BANNED_LINKS: u32 = 6;

const LOWERED_PRICES: u32 = 7;

const LISTED: u32 = 8;

const ANSWERS: u32 = 9;

// Eight counts of answers, and then one for each kind of change.
const CHANGES: u32 = 17;

fn place_of(answer: u32) -> u32 {
    match answer {
        0 => 0,
        BUFFER_SHORT => 1,
        NOT_A_TREE => 2,
        WRONG_TOTAL => 3,
        BAD_CUT => 4,
        OVERCHARGED => 5,
        WRONG_AMOUNTS => 6,
        _ => 7,
    }
}

// What the planner's check answers to a plan, and what the reference does.
#[derive(Clone, Copy)]
struct Replies {
    planner: u32,
    reference: u32,
}

fn both_replies(table: &[u32; CELLS], p: Problem, o: Certificate) -> Replies {
    Replies {
        planner: calls::check(boards::of_problem(p), o),
        reference: number_of(certificate::check(table, &o, p.n, p.root)),
    }
}

fn are_right(r: Replies, answer: u32) -> bool {
    r.reference == answer && r.planner == answer
}

// One plan; and its replies with another answer in the planner's place, and in the reference's: both have to be
// reported.
fn tried(tally: Tally, table: &[u32; CELLS], p: Problem, o: Certificate, answer: u32) -> Tally {
    let r = both_replies(table, p, o);
    let t = tally.checked(ANSWERS.wrapping_add(place_of(answer)), are_right(r, answer));
    let mut wrong = r;
    wrong.reference = other_than(answer);
    let u = t.planted(!are_right(wrong, answer));
    with_wrong_answer(u, r, answer)
}

fn other_than(answer: u32) -> u32 {
    if answer == 0 { WRONG_AMOUNTS } else { 0 }
}

// Another answer in the planner's place, which has to be reported.
fn with_wrong_answer(tally: Tally, r: Replies, answer: u32) -> Tally {
    let mut wrong = r;
    wrong.planner = other_than(answer);
    tally.planted(!are_right(wrong, answer))
}

// A plan whose answer the reference knows.
fn tried_by_reference(tally: Tally, table: &[u32; CELLS], p: Problem, o: Certificate) -> Tally {
    let r = both_replies(table, p, o);
    let t = tally.checked(
        ANSWERS.wrapping_add(place_of(r.reference)),
        are_right(r, r.reference),
    );
    with_wrong_answer(t, r, r.reference)
}

// A plan with one change, counted by its kind.
fn tried_change(tally: Tally, table: &[u32; CELLS], p: Problem, c: Change, kind: u32) -> Tally {
    let t = tally.with(CHANGES.wrapping_add(kind), 1);
    tried(t, table, p, c.certificate, c.answer)
}

// Every change by itself; and after each another one, whose answer the reference knows.
fn tried_changes(
    tally: Tally,
    table: &[u32; CELLS],
    p: Problem,
    o: Certificate,
    seed: Random,
) -> Tally {
    let mut t = tally;
    let mut g = seed;
    for kind in 0..changes::KINDS {
        let change = changes::nth_change(table, o, p.n, p.root, kind, g);
        if let Some(c) = change {
            t = tried_change(t, table, p, c, kind);
        }
        g = g.next().next();
        let first = change.map_or(o, |c| c.certificate);
        let other = g.below(changes::KINDS);
        let both = changes::nth_change(table, first, p.n, p.root, other, g).map_or(
            first,
            |d| d.certificate,
        );
        t = tried_by_reference(t, table, p, both);
    }
    t
}

// The board with a link of the tree banned: 21.
fn tried_banned(tally: Tally, p: Problem, o: Certificate, vertex: u32) -> Tally {
    if vertex == p.root {
        return tally;
    }
    let q = p.with_mark(access::byte(&o.parents, vertex), vertex, BANNED);
    let table = q.costs();
    tried(tally.with(BANNED_LINKS, 1), &table, q, o, NOT_A_TREE)
}

// The board with the price of a link outside the tree one below what the cuts charge it: 24.
fn tried_lowered(
    tally: Tally,
    table: &[u32; CELLS],
    p: Problem,
    o: Certificate,
    tail: u32,
    head: u32,
) -> Tally {
    let charge = shown::charge(&o.words, o.count, tail, head);
    if table[problem::cell(tail, head)] == ABSENT || charge == 0 {
        return tally;
    }
    if access::byte(&o.parents, head) == tail {
        return tally;
    }
    let lower = ((charge % 4294967296) as u32).wrapping_sub(1);
    let q = p.with_weight(tail, head, lower);
    let costs = q.costs();
    tried(tally.with(LOWERED_PRICES, 1), &costs, q, o, OVERCHARGED)
}

// What a look gave, as a plan that is sent.
fn own_plan(s: Shown) -> Certificate {
    let mut o = Certificate::empty();
    let parents = s.parents;
    let words = s.cuts;
    o.parents = parents;
    o.total = s.total;
    o.count = s.pairs;
    o.words = words;
    o
}

// The kind of a look at an instance of that cheapest total.
fn kind_at(total: u32, budget: u32) -> u32 {
    if total == ABSENT {
        return outcome::NONE;
    }
    if budget < total {
        return outcome::OVER;
    }
    outcome::PLAN
}

// "All that our own planner gives as plan or over must be accepted."; what it shows where there is no tree is none. The
// total is that of the reference's planner.
fn tried_own(tally: Tally, table: &[u32; CELLS], p: Problem, total: u32, budget: u32) -> Tally {
    let q = p.with_budget(budget);
    let s = calls::look(boards::of_problem(q));
    let kind = kind_at(total, budget);
    let t = tally.checked(OWN_PLANS, s.kind == kind);
    let answer = if kind == outcome::NONE { NOT_A_TREE } else { 0 };
    tried(t, table, q, own_plan(s), answer)
}

// The plan of the reference's planner, with the budgets at both ends: "the budget is not judged".
fn tried_made(tally: Tally, table: &[u32; CELLS], p: Problem, o: Certificate, g: Random) -> Tally {
    let t = tally.with(MADE, 1);
    let u = tried(t, table, p.with_budget(0), o, 0);
    let v = tried(u, table, p.with_budget(MAX_BUDGET), o, 0);
    let w = tried_changes(v, table, p, o, g);
    let h = g.next();
    let x = tried_banned(w, p, o, g.below(p.n));
    tried_lowered(x, table, p, o, g.below(p.n), h.below(p.n))
}

// Every plan for an instance: our own, and the one that the reference's planner made.
fn tried_all(tally: Tally, table: &[u32; CELLS], p: Problem, o: Certificate, g: Random) -> Tally {
    let t = tried_own(tally.with(INSTANCES, 1), table, p, o.total, 0);
    if o.total == ABSENT {
        return tried(t, table, p, o, NOT_A_TREE);
    }
    let u = tried_own(t, table, p, o.total, o.total);
    tried_made(u, table, p, o, g)
}

// A small instance: the reference's planner has found the cheapest total of the listing.
fn tried_small(tally: Tally, k: u32) -> Tally {
    let p = sample::small_instance(k);
    let table = p.costs();
    let list = trees::list(&table, p.n, p.root);
    let o = dual::plan(&table, p.n, p.root);
    let t = tally.checked(LISTED, o.total == list.cheapest);
    let u = t.planted(o.total.wrapping_add(1) != list.cheapest);
    tried_all(u, &table, p, o, Random::seeded(k))
}

fn run_small(count: u32) -> Tally {
    (0..count).fold(Tally::zero(), |t, k| tried_small(t, k))
}

fn tried_large(tally: Tally, k: u32) -> Tally {
    let p = families::nth_instance(k);
    let table = p.costs();
    let o = dual::plan(&table, p.n, p.root);
    tried_all(tally, &table, p, o, Random::seeded(k))
}

fn run_large(count: u32) -> Tally {
    (0..count).fold(Tally::zero(), |t, k| tried_large(t, k))
}

// What there was, the answers, the changes in their order.
fn report(tally: Tally) {
    tally.report(
        b"instances\nplans made elsewhere\nown plans\nboards with a link banned\nboards with a price lowered\ntotals held to the listing\nanswer 0:\nanswer 14:\nanswer 21:\nanswer 22:\nanswer 23:\nanswer 24:\nanswer 25:\nother answers\nlists a byte short\npairs a word short\ncounts of 2147483648:\ncounts of 4000000000:\na feeder at the root\nno feeder\nits own feeder\nno position\na ring\ntotal one more\ntotal one less\nanother total\n62 cuts:\nthe empty set\nthe root in a set\nno position in a set\namount one more\nthe largest amount\n61 of the largest amount:\namounts that wrap\namount one less\na cut left out\na cut of amount 0:\nno more than needed\na cut moved\none link for another\n",
    );
}

pub fn small() {
    report(run_small(2000));
}

pub fn large() {
    report(run_large(80));
}
