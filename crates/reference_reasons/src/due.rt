// What `why` and `plan_without` have to give: the refusal; who or what closes the link; or the outcome, its total and,
// where all trees are listed, the first of the cheapest ones.
use crate::setter;
use reference::log::{Log, check_arc};
use reference::outcome::{NONE, OVER, PLAN};
use reference::problem::{ABSENT, CELLS, PINNED, Problem};
use reference::refusals::{BUFFER_SHORT, INVALID_BOARD};
use reference::shown::CUT_WORDS;
use reference::{dual, outcome, problem, trees};

// The reasons, in the order in which they are looked for: banned, and the place of who set the mark; a rival, and the
// place of who set its mark; the outcome, and its total, ABSENT where there is no tree. Planning without a link gives
// the last one.
#[derive(Clone, Copy, PartialEq, Eq)]
pub enum Reason {
    Banned(u32),
    Rival(u32, u32),
    Priced(u32, u32),
}

// The first and the last of the cheapest trees, where they are listed.
#[derive(Clone, Copy)]
pub struct Ends {
    pub first: [u8; trees::PARENTS],
    pub last: [u8; trees::PARENTS],
}

// The reason, or the number of the refusal; and the trees.
#[derive(Clone, Copy)]
pub struct Due {
    pub reason: Result<Reason, u32>,
    pub trees: Option<Ends>,
}

impl Due {
    fn of(reason: Reason) -> Due {
        Due {
            reason: Ok(reason),
            trees: None,
        }
    }

    pub fn refused(answer: u32) -> Due {
        Due {
            reason: Err(answer),
            trees: None,
        }
    }
}

// "15, 9, 10 (no such link), 14, in this order". So much is lent of the two buffers.
pub fn check(
    p: &Problem,
    is_damaged: bool,
    tail: u32,
    head: u32,
    parents_room: u32,
    cuts_room: u32,
) -> Result<(), u32> {
    if is_damaged {
        return Err(INVALID_BOARD);
    }
    check_arc(p, tail, head)?;
    if parents_room < p.n || cuts_room < CUT_WORDS {
        return Err(BUFFER_SHORT);
    }
    Ok(())
}

// Whether another link into the same position is pinned.
fn is_rival(p: &Problem, other: u32, tail: u32, head: u32) -> bool {
    other != tail && p.mark_of(other, head) == PINNED
}

// "another link into the same position is pinned: which (the smallest such feeder)".
fn rival(p: &Problem, tail: u32, head: u32) -> Option<u32> {
    (0..p.n).find(|&other| is_rival(p, other, tail, head))
}

// How many such links there are.
pub fn rivals(p: &Problem, tail: u32, head: u32) -> u32 {
    (0..p.n)
        .filter(|&other| is_rival(p, other, tail, head))
        .count() as u32
}

// "plan or over with the total ..; or none".
fn outcome_of(total: u32, budget: u32) -> u32 {
    if total == ABSENT {
        return NONE;
    }
    if budget < total {
        return OVER;
    }
    PLAN
}

// What planning has to give, by the cheapest total.
fn of_total(total: u32, budget: u32) -> Due {
    Due::of(Reason::Priced(outcome_of(total, budget), total))
}

// All trees are listed up to so many vertices; of larger instances only the total is known.
const MAX_LISTED: u32 = 5;

// The outcome of the sheet whose remaining arcs a table holds.
fn planned(table: &[u32; CELLS], n: u32, root: u32, budget: u32) -> Due {
    if MAX_LISTED < n {
        return of_total(dual::plan(table, n, root).total, budget);
    }
    let list = trees::list(table, n, root);
    let first = list.first;
    let last = list.last;
    Due {
        trees: Some(Ends { first, last }),
        ..of_total(list.cheapest, budget)
    }
}

// What `why` has to give of a sound board that shows the instance p under this log, with buffers long enough: "first
// that holds: banned, and by whom ..; rival ..; priced: the outcome of the sheet with this link as the only one into
// its position", whose remaining arcs the table holds.
pub fn why(p: Problem, log: Log, table: &[u32; CELLS], tail: u32, head: u32) -> Due {
    if let Err(answer) = check_arc(&p, tail, head) {
        return Due::refused(answer);
    }
    if p.mark_of(tail, head) == problem::BANNED {
        return Due::of(Reason::Banned(setter::place(&log, tail, head)));
    }
    match rival(&p, tail, head) {
        Some(other) => Due::of(Reason::Rival(other, setter::place(&log, other, head))),
        None => planned(table, p.n, p.root, p.budget),
    }
}

// What `plan_without` has to give: "the outcome of the sheet with this link taken out", in the same way.
pub fn without(p: Problem, table: &[u32; CELLS], tail: u32, head: u32) -> Due {
    match check_arc(&p, tail, head) {
        Ok(()) => planned(table, p.n, p.root, p.budget),
        Err(answer) => Due::refused(answer),
    }
}

// "a link is closed exactly when it is banned, has a rival, or its priced outcome is not within the bound; sure exactly
// when there is a tree within the bound and the outcome without it is not within it; open otherwise": the state by the
// total with the link as the only one into its position, if that is what `why` gives, and the total without it. Where
// the link is not closed there is a tree within the bound.
pub fn state(total_with: Option<u32>, total_without: u32, limit: u32) -> u32 {
    total_with.map_or(1, |total| outcome::arc_state(limit, total, total_without))
}

// The cheapest total of the sheet itself, by the same two: a tree uses the link or it does not.
pub fn least_total(total_with: Option<u32>, total_without: u32) -> u32 {
    total_with.map_or(total_without, |total| total.min(total_without))
}
