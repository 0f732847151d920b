// Instances of 32 vertices at the limits: each family with its weights raised to the greatest, and with every arc at
// that weight; the greatest budget, and one above it.
use crate::{exact, large};
use harness::{boards, calls};
use reference::call::Call;
use reference::problem::{MAX_BUDGET, Problem};
use reference::random::Random;
use reference::refusals::{BAD_BUDGET, BAD_CARD_BUDGET, INVALID_BOARD};
use reference::tally::Tally;
use reference::{card, families};

// What is counted beside the counts of large.rt.
const LIMITS: u32 = 10;

// The answer to a budget press.
fn press_answer(p: Problem, budget: u32) -> u32 {
    let c = Call::budget(budget);
    calls::made(boards::of_problem(p), c).answer
}

// Whether a card with that budget, a press of it and a look at a board with it get these answers.
fn answers_are(p: Problem, budget: u32, of_card: u32, of_press: u32, of_look: u32) -> bool {
    let q = p.with_budget(budget);
    calls::open(card::build(q)).answer == of_card
        && press_answer(p, budget) == of_press
        && exact::look_at(q).answer == of_look
}

// Whether a budget is the greatest: one above is refused, by 5 on a card, by 11 in a press, by 15 on a board.
fn is_limit(p: Problem, budget: u32) -> bool {
    answers_are(p, budget, 0, 0, 0)
        && answers_are(
            p,
            budget.wrapping_add(1),
            BAD_CARD_BUDGET,
            BAD_BUDGET,
            INVALID_BOARD,
        )
}

// The answers at the limit with one of the three expected wrongly, and another budget taken for the limit: all of it
// has to be reported.
fn planted(tally: Tally, p: Problem) -> Tally {
    let t = tally.planted(!answers_are(p, MAX_BUDGET, BAD_CARD_BUDGET, 0, 0));
    let u = t.planted(!answers_are(p, MAX_BUDGET, 0, BAD_BUDGET, 0));
    let v = u.planted(!answers_are(p, MAX_BUDGET, 0, 0, INVALID_BOARD));
    let w = v.planted(!is_limit(p, MAX_BUDGET + 1));
    w.planted(!is_limit(p, MAX_BUDGET - 1))
}

// One instance as large.rt has it; then the greatest budget.
fn tried(tally: Tally, p: Problem, k: u32) -> Tally {
    let t = large::tried_all(tally, p, Random::seeded(k));
    planted(t.checked(LIMITS, is_limit(p, MAX_BUDGET)), p)
}

fn run() -> Tally {
    let mut t = Tally::zero();
    for k in 0..families::FAMILIES {
        let p = families::nth_instance(k);
        t = tried(t, families::raised(p), k);
        t = tried(t, families::at_greatest(p), k);
    }
    t
}

pub fn all() {
    run().report(
        b"instances of 32 at the dearest price\nlooks\nplan\nover\nnone\narcs looked at singly\nover held to the cheapest total\ngreatest budgets\n",
    );
}
