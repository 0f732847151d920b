// The states of a large instance, and its cheapest total.
use harness::calls::Shown;
use harness::verdict::Wrong;
use harness::{boards, calls, verdict};
use reference::problem::{ABSENT, BANNED, CELLS, MAX_VERTICES, PINNED, Problem, STRIDE};
use reference::{access, outcome, problem, shown};

pub fn look_at(p: Problem) -> Shown {
    calls::look(boards::of_problem(p))
}

// Whether its reduced price closes an arc; one that does not remain has none.
fn is_priced_out(
    cuts: &[u32], // the words that were shown
    tail: u32, // the arc
    head: u32,
    weight: u32,
    total: u32, // the cheapest total
    limit: u32, // what a total may be at most
) -> bool {
    weight != ABSENT && shown::reduced_closes(cuts, tail, head, weight, total, limit)
}

// The place of the first such arc among the states.
pub fn first_priced_out(table: &[u32; CELLS], p: Problem, s: Shown) -> Option<u32> {
    let limit = outcome::limit(s.total, p.budget);
    (0u32..)
        .zip(table)
        .find(|(k, weight)| {
            is_priced_out(&s.cuts, k / STRIDE, k % STRIDE, **weight, s.total, limit)
        })
        .map(|(k, _)| k)
}

// Whether the state of a remaining arc fits the shown tree and cuts: "closed" where its reduced price says so, not
// "closed" in the tree, "sure" only in the tree.
fn remaining_fits(p: Problem, s: Shown, tail: u32, head: u32, weight: u32) -> bool {
    let state = state_at(s, tail, head);
    let limit = outcome::limit(s.total, p.budget);
    if is_priced_out(&s.cuts, tail, head, weight, s.total, limit) {
        return state == 1;
    }
    if access::byte(&s.parents, head) == tail {
        return 1 < state;
    }
    state < 3
}

// One state of an instance of 32 vertices against what a look showed beside it: "closed" where the arc does not remain
// or there is no tree.
fn fits_at(table: &[u32; CELLS], p: Problem, s: Shown, tail: u32, head: u32) -> bool {
    let state = state_at(s, tail, head);
    let weight = table[problem::cell(tail, head)];
    if !p.is_arc(tail, head) {
        return state == 0;
    }
    if s.kind == outcome::NONE {
        return state == 1;
    }
    if weight == ABSENT {
        return state == 1;
    }
    remaining_fits(p, s, tail, head, weight)
}

pub fn states_fit(table: &[u32; CELLS], p: Problem, s: Shown) -> bool {
    (0..CELLS as u32).all(|k| fits_at(table, p, s, k / STRIDE, k % STRIDE))
}

// Whether two looks show the same tree and the same states.
pub fn same_shown(s: Shown, other: Shown) -> bool {
    access::equal_fronts(&s.parents, &other.parents, MAX_VERTICES)
        && access::equal_fronts(&s.states, &other.states, CELLS as u32)
}

// A state of an instance of 32 vertices, whose states stand n to a row.
fn state_at(s: Shown, tail: u32, head: u32) -> u32 {
    access::byte(
        &s.states,
        tail % MAX_VERTICES * MAX_VERTICES + head % MAX_VERTICES,
    )
}

// The cheapest total of an instance, by a look whose tree and cuts prove it; ABSENT without a tree.
pub fn proved_total(p: Problem) -> Result<u32, Wrong> {
    let s = look_at(p);
    verdict::certified(&p.costs(), p.n, p.root, s)?;
    if s.kind == outcome::NONE {
        return Ok(ABSENT);
    }
    Ok(s.total)
}

// The state of an arc that remains under a limit on totals: by the cheapest tree that uses it, and the cheapest that
// avoids it. A pinned arc that remains can not be avoided.
fn state_of_remaining(p: Problem, limit: u32, tail: u32, head: u32) -> Result<u32, Wrong> {
    let using = proved_total(p.with_mark(tail, head, PINNED))?;
    if p.mark_of(tail, head) == PINNED {
        return Ok(outcome::arc_state(limit, using, ABSENT));
    }
    let avoiding = proved_total(p.with_mark(tail, head, BANNED))?;
    Ok(outcome::arc_state(limit, using, avoiding))
}

// Whether the state of an arc is right beside the cheapest total that the look showed.
pub fn arc_right(p: Problem, s: Shown, tail: u32, head: u32) -> bool {
    let state = state_at(s, tail, head);
    if !p.is_arc(tail, head) {
        return state == 0;
    }
    if !p.remains(tail, head) {
        return state == 1;
    }
    let cheapest = if s.kind == outcome::NONE {
        ABSENT
    } else {
        s.total
    };
    state_of_remaining(p, outcome::limit(cheapest, p.budget), tail, head) == Ok(state)
}
