// Whether a result is right: all that is determined is what it should be, and the tree is a cheapest one, whichever.
use crate::buffers::ROOM;
use crate::calls::{Call, OVER, PLAN, Shown};
use reference_runs::choice::Choice;
use reference_runs::costs::NOT_IN_TREE;
use reference_runs::places;
use reference_runs::places::entry;

// Each place of both buffers holds what it should, or says of a cell that it is not in the tree; "both ways alike".
pub fn are_right(s: Shown, e: Shown, n: u32) -> bool {
    let all = if s.answer == 0 { places::cells(n) } else { 0 };
    (0..ROOM as u32).all(|k| {
        let cost = entry(&s.replacements, k);
        let is_cell = k < all;
        let mirrored = entry(&s.replacements, places::mirror(n % 64, k) % ROOM as u32);
        let is_outside = is_cell && cost == NOT_IN_TREE;
        entry(&s.states, k) == entry(&e.states, k)
            && (!is_cell || cost == mirrored)
            && (is_outside || cost == entry(&e.replacements, k))
    })
}

// The total of the runs that have a replacement cost, if they are a spanning tree that respects the marks.
fn tree_total(s: Shown, c: Call) -> Option<u32> {
    let mut chosen = Choice::empty();
    for cell in 0..places::cells(c.n) {
        if places::is_upper(c.n, cell) {
            let at = cell as usize % ROOM;
            let is_taken = s.replacements[at] != NOT_IN_TREE;
            chosen = chosen.with(c.n, cell, c.weights[at], c.marks[at], is_taken)?;
        }
    }
    chosen.tree_total(c.n)
}

// What was given for a call, held to what should be.
pub fn is_right(s: Shown, e: Shown, c: Call) -> bool {
    let is_plan = s.outcome == PLAN || s.outcome == OVER;
    s.answer == e.answer
        && s.outcome == e.outcome
        && s.total == e.total
        && are_right(s, e, c.n)
        && (!is_plan || tree_total(s, c) == Some(s.total))
}
