// Whether what a look showed is right, or the first thing that is not.
use crate::calls::Shown;
use crate::{buffers, calls};
use reference::problem::{CELLS, Problem};
use reference::trees::Listing;
use reference::{access, outcome, shown, trees};

// The first thing that is not right.
#[derive(Clone, Copy, PartialEq, Eq)]
pub enum Wrong {
    Kind,
    Total,
    Parents,
    Cuts,
    States,
    Touched,
    First,
}

// Whether the buffers are as before from these places on.
fn untouched_from(s: Shown, parents_from: u32, states_from: u32, cuts_from: u32) -> bool {
    buffers::bytes_untouched(&s.parents, parents_from, buffers::PARENTS as u32)
        && buffers::bytes_untouched(&s.states, states_from, buffers::STATES as u32)
        && buffers::words_untouched(&s.cuts, cuts_from, buffers::CUTS as u32)
}

pub fn all_untouched(s: Shown) -> bool {
    untouched_from(s, 0, 0, 0)
}

// The parents and the cuts of what was shown, by the documents' conditions, for any n: a cheapest tree, but not which
// one. The table holds the weights of the remaining arcs. A refused look is not right, whatever stands in the buffers.
pub fn certified(table: &[u32; CELLS], n: u32, root: u32, s: Shown) -> Result<(), Wrong> {
    if s.kind == calls::REFUSED {
        return Err(Wrong::Kind);
    }
    if !shown::parents_right(table, &s.parents, n, root, s.kind, s.total) {
        return Err(Wrong::Parents);
    }
    if !shown::cuts_right(table, &s.cuts, n, root, s.pairs, s.kind, s.total) {
        return Err(Wrong::Cuts);
    }
    if !untouched_from(s, n, n.wrapping_mul(n), shown::CUT_WORDS) {
        return Err(Wrong::Touched);
    }
    Ok(())
}

// Whether every state is that of the listing.
fn states_right(states: &[u8], list: Listing, p: Problem) -> bool {
    let n = p.n;
    if n == 0 {
        return false;
    }
    let count = n.wrapping_mul(n);
    (0..count).all(|k| access::byte(states, k) == outcome::state(list, p, k / n, k % n))
}

// Whether the parents are those of the listing's first cheapest tree.
fn shows_first(list: Listing, n: u32, s: Shown) -> bool {
    outcome::is_first(list, &s.parents, n)
}

// Everything that a look shows of an instance of at most six vertices, against its table of costs and its listing.
pub fn against(table: &[u32; CELLS], list: Listing, p: Problem, s: Shown) -> Result<(), Wrong> {
    let kind = outcome::kind(list, p.budget);
    if s.kind != kind {
        return Err(Wrong::Kind);
    }
    if kind != outcome::NONE && s.total != list.cheapest {
        return Err(Wrong::Total);
    }
    if !states_right(&s.states, list, p) {
        return Err(Wrong::States);
    }
    certified(table, p.n, p.root, s)?;
    if !shows_first(list, p.n, s) {
        return Err(Wrong::First);
    }
    Ok(())
}

// The same where the listing is wanted only once.
pub fn judged(p: Problem, s: Shown) -> Result<(), Wrong> {
    let table = p.costs();
    against(&table, trees::list(&table, p.n, p.root), p, s)
}
