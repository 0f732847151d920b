// Both calls on one arc of a board, held to the reference; the state that a look shows of it, held to what the two
// calls gave; and counts of what was met.
use crate::calls::{Given, Results};
use crate::{calls, faults};
use harness::calls::Shown;
use harness::session::Session;
use reference::log::Log;
use reference::problem::{ABSENT, CELLS, PINNED, Problem};
use reference::random::Random;
use reference::refusals::NO_VERTEX;
use reference::tally::Tally;
use reference::{access, outcome};
use reference_reasons::due::Reason;
use reference_reasons::{due, restricted, setter};

// The counts of the calls and of the states that were held to them.
const WHY: u32 = 9;

const WITHOUT: u32 = 10;

const STATES: u32 = 11;

// Banned, and a pinned rival, by the card, by a record of the card, by a press, by a group press.
const BANNED_BY: u32 = 12;

const RIVAL_BY: u32 = 16;

// The outcomes with the arc alone into its head, and without it: plan, over, none.
const WITH_OUTCOMES: u32 = 20;

const WITHOUT_OUTCOMES: u32 = 23;

// The states of arcs with a tree: closed by its price, open, sure.
const PRICED_STATES: u32 = 25;

// A pinned arc with a rival, several rivals, a pinned arc taken out, a bound above the budget.
const TWO_PINS: u32 = 29;

const SEVERAL: u32 = 30;

const PINNED_OUT: u32 = 31;

const RAISED: u32 = 32;

// Positions not below n, and no link.
const OUTSIDE: u32 = 33;

const NO_LINK: u32 = 34;

fn count_of(answer: u32) -> u32 {
    if answer == NO_VERTEX {
        OUTSIDE
    } else {
        NO_LINK
    }
}

// The state of an arc that a look shows.
pub fn state_at(look: Shown, n: u32, tail: u32, head: u32) -> u32 {
    access::byte(&look.states, n.wrapping_mul(tail).wrapping_add(head))
}

// What was met, by who set the mark.
fn counted_reason(tally: Tally, p: Problem, log: &Log, tail: u32, head: u32, r: Reason) -> Tally {
    let is_pinned = p.mark_of(tail, head) == PINNED;
    match r {
        Reason::Banned(place) => tally.with(
            BANNED_BY.wrapping_add(setter::setter_at(log, place).number()),
            1,
        ),
        Reason::Rival(_, place) => tally
            .with(
                RIVAL_BY.wrapping_add(setter::setter_at(log, place).number()),
                1,
            )
            .with(TWO_PINS, u32::from(is_pinned))
            .with(SEVERAL, u32::from(1 < due::rivals(&p, tail, head))),
        Reason::Priced(outcome, _) => tally
            .with(WITH_OUTCOMES.wrapping_add(outcome), 1)
            .with(PINNED_OUT, u32::from(is_pinned)),
    }
}

// The outcome without the arc, and the state where there is a tree with it.
fn counted_state(tally: Tally, r: Results, state: u32, is_raised: bool) -> Tally {
    let mut t = tally.with(RAISED, u32::from(is_raised));
    if let Ok(Reason::Priced(outcome, _)) = r.without.reason {
        t = t.with(WITHOUT_OUTCOMES.wrapping_add(outcome), 1);
    }
    match r.why.reason {
        Ok(Reason::Priced(outcome, _)) if outcome != outcome::NONE => t.with(
            PRICED_STATES.wrapping_add(state),
            1,
        ),
        _ => t,
    }
}

// "Against the bound of 'Link states' (A2's) this says closed or not": what a total may be at most, by the look.
fn limit_of(s: Shown, budget: u32) -> u32 {
    if s.kind == outcome::NONE {
        return outcome::limit(ABSENT, budget);
    }
    outcome::limit(s.total, budget)
}

// Whether the state of the look is the one that the two calls say, and the bound too; with another state that has to be
// reported.
fn tried_state(tally: Tally, r: Results, state: u32, limit: u32, budget: u32) -> Tally {
    let with = r.why.total();
    let without = r.without.total().unwrap_or(0);
    let said = due::state(with, without, limit);
    let least = due::least_total(with, without);
    let right = state == said && limit == outcome::limit(least, budget);
    let t = tally.checked(STATES, right).planted(state % 3 + 1 != said);
    counted_state(t, r, state, budget < limit)
}

// `why`, held to what the reference says of the pair.
fn tried_why(
    tally: Tally,
    table: &[u32; CELLS],
    p: Problem,
    log: Log,
    tail: u32,
    head: u32,
    g: Given,
    r: Random,
) -> Tally {
    let only = restricted::with_only(table, tail, head);
    let d = due::why(p, log, &only, tail, head);
    faults::tried(tally, WHY, &only, p.n, p.root, d, g, r)
}

// `plan_without`, in the same way.
fn tried_without(
    tally: Tally,
    table: &[u32; CELLS],
    p: Problem,
    tail: u32,
    head: u32,
    g: Given,
    r: Random,
) -> Tally {
    let rest = restricted::without(table, tail, head);
    let d = due::without(p, &rest, tail, head);
    faults::tried(tally, WITHOUT, &rest, p.n, p.root, d, g, r)
}

// A pair of the session's board. The table holds the weights of the remaining arcs of the log's instance p, and look is
// what the board shows.
pub fn tried(
    tally: Tally,
    s: Session,
    table: &[u32; CELLS],
    p: Problem,
    look: Shown,
    tail: u32,
    head: u32,
    r: Random,
) -> Tally {
    let log = s.log;
    let both = calls::ask(s.board, tail, head, r.below(2) == 0);
    let t = tried_why(tally, table, p, log, tail, head, both.why, r);
    let u = tried_without(t, table, p, tail, head, both.without, r);
    match both.why.reason {
        Err(answer) => u.with(count_of(answer), 1),
        Ok(reason) => tried_state(
            counted_reason(u, p, &log, tail, head, reason),
            both,
            state_at(look, p.n, tail, head),
            limit_of(look, p.budget),
            p.budget,
        ),
    }
}
