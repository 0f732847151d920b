// Whether a shown result meets the conditions of documents 01 and 02, for any n up to 32. A table holds the weights of
// the remaining arcs (problem::costs).
use crate::access::{all_are, byte, word};
use crate::outcome::NONE;
use crate::problem;
use crate::problem::{ABSENT, CELLS, MAX_VERTICES, STRIDE};

// Cuts are shown in 122 words, as 61 pairs.
pub const PAIRS: u32 = 61;

pub const CUT_WORDS: u32 = 2 * PAIRS;

// The byte at the root, and everywhere where no tree is shown.
pub const NO_PARENT: u8 = 255;

// The sum of two costs, ABSENT where one of them is.
fn added(a: u32, b: u32) -> u32 {
    if a == ABSENT || b == ABSENT {
        return ABSENT;
    }
    a.wrapping_add(b)
}

// The weight of the arc into a vertex, ABSENT where it does not remain; at the root 0, if it has no parent.
fn cost_into(table: &[u32; CELLS], root: u32, tail: u32, vertex: u32) -> u32 {
    if vertex == root {
        return if tail == u32::from(NO_PARENT) {
            0
        } else {
            ABSENT
        };
    }
    if MAX_VERTICES <= tail {
        return ABSENT;
    }
    table[problem::cell(tail, vertex)]
}

// The total of the arcs that the parents name; ABSENT where one does not remain, or the root has a parent.
pub fn tree_total(table: &[u32; CELLS], parents: &[u8], n: u32, root: u32) -> u32 {
    let mut sum = 0;
    for v in 0..n {
        sum = added(sum, cost_into(table, root, byte(parents, v), v));
    }
    sum
}

// Whether the parents lead from a vertex to the root.
fn comes_from_root(parents: &[u8], root: u32, vertex: u32) -> bool {
    let mut v = vertex;
    for step in 0..MAX_VERTICES + 1 {
        if v == root {
            return true;
        }
        v = byte(parents, v);
    }
    false
}

pub fn tree_spans(parents: &[u8], n: u32, root: u32) -> bool {
    (0..n).all(|v| comes_from_root(parents, root, v))
}

// The parents of what is shown: a tree "picks one remaining link into each position except the root, so that every
// position is reached from the root", with that total; "255 at the root", and everywhere when none: "when over budget,
// .. the feeder list holds a cheapest tree" (02, A2). Which of the cheapest it is (02, A10) the listing of a small
// instance says, outcome::is_first.
pub fn parents_right(
    table: &[u32; CELLS], // the weights of the remaining arcs
    parents: &[u8], // the bytes that were shown, the parent of vertex k at place k
    n: u32, // how many vertices there are
    root: u32, // the one that has no parent
    kind: u32, // the kind of outcome that was shown
    total: u32, // the total that was shown with it
) -> bool {
    if kind == NONE {
        return all_are(parents, 0, n, NO_PARENT);
    }
    tree_total(table, parents, n, root) == total && tree_spans(parents, n, root)
}

// Whether a vertex is in a set: bit k for vertex k.
pub fn holds(set: u32, vertex: u32) -> bool {
    set >> (vertex % 32) & 1 == 1
}

// The set of one vertex.
pub fn only(vertex: u32) -> u32 {
    1 << (vertex % 32)
}

// "A cut is a non-empty set of positions without the root": and only of the n positions that there are.
pub fn is_cut_set(n: u32, root: u32, set: u32) -> bool {
    set != 0 && !holds(set, root) && (MAX_VERTICES <= n || set >> (n % 32) == 0)
}

// "A link enters a cut if its feeder is outside and its fed position inside."
pub fn enters(set: u32, tail: u32, head: u32) -> bool {
    !holds(set, tail) && holds(set, head)
}

// What the cuts that an arc enters charge it: the first so many. No arc enters the empty sets that follow those shown.
pub fn charge(cuts: &[u32], count: u32, tail: u32, head: u32) -> u64 {
    let mut sum: u64 = 0;
    for k in 0..count {
        let at = k.wrapping_add(k);
        if enters(word(cuts, at), tail, head) {
            sum = sum.wrapping_add(u64::from(word(cuts, at.wrapping_add(1))));
        }
    }
    sum
}

// "If total plus reduced price exceeds the budget, the link is closed", by "the larger of the budget and the cheapest
// total" (02, A2): whether a remaining arc is closed so. Its reduced price is its weight less what the cuts charge it.
pub fn reduced_closes(
    cuts: &[u32], // the words that were shown
    tail: u32, // the arc
    head: u32,
    weight: u32,
    total: u32, // the cheapest total
    limit: u32, // the larger of the budget and that
) -> bool {
    let room = u64::from(limit).wrapping_add(charge(cuts, PAIRS, tail, head));
    room < u64::from(total).wrapping_add(u64::from(weight))
}

// "for each remaining link, the amounts of the cuts it enters add to at most its price".
pub fn none_overcharged(table: &[u32; CELLS], cuts: &[u32], count: u32) -> bool {
    (0u32..).zip(table).all(|(k, &weight)| {
        weight == ABSENT || charge(cuts, count, k / STRIDE, k % STRIDE) <= u64::from(weight)
    })
}

// "each amount is at least 1", and each set is one of a cut.
fn cuts_are_proper(cuts: &[u32], n: u32, root: u32, count: u32) -> bool {
    (0..count).all(|k| {
        let at = k.wrapping_mul(2);
        word(cuts, at.wrapping_add(1)) != 0 && is_cut_set(n, root, word(cuts, at))
    })
}

// The sum of the first so many amounts.
pub fn amounts(cuts: &[u32], count: u32) -> u64 {
    let mut sum: u64 = 0;
    for k in 0..count {
        sum = sum.wrapping_add(u64::from(word(cuts, k.wrapping_add(k).wrapping_add(1))));
    }
    sum
}

// "There are at most 2n − 3 cuts for n of 2 or more, none for n = 1."
fn cut_count_allowed(n: u32, count: u32) -> bool {
    if n < 2 {
        return count == 0;
    }
    n <= MAX_VERTICES && count <= 2 * n - 3
}

// Whether the cuts prove that no tree is cheaper than the total, and zeros follow them.
fn are_cuts(table: &[u32; CELLS], cuts: &[u32], n: u32, root: u32, count: u32, total: u32) -> bool {
    cut_count_allowed(n, count)
        && cuts_are_proper(cuts, n, root, count)
        && all_are(cuts, count.wrapping_add(count), CUT_WORDS, 0)
        && amounts(cuts, PAIRS) == u64::from(total)
        && none_overcharged(table, cuts, PAIRS)
}

// Whether a remaining arc enters a set.
fn is_entered(table: &[u32; CELLS], set: u32) -> bool {
    (0u32..).zip(table).any(|(k, &weight)| enters(set, k / STRIDE, k % STRIDE) && weight != ABSENT)
}

// "exactly one pair is given: a non-empty set of positions without the root that no remaining link enters, with amount
// 0."
fn is_unentered(table: &[u32; CELLS], cuts: &[u32], n: u32, root: u32, count: u32) -> bool {
    if count != 1 {
        return false;
    }
    let set = word(cuts, 0);
    if !is_cut_set(n, root, set) {
        return false;
    }
    if !all_are(cuts, 1, CUT_WORDS, 0) {
        return false;
    }
    !is_entered(table, set)
}

// The cuts of what is shown, and how many: those that prove the total where there is a tree, and otherwise one set.
pub fn cuts_right(
    table: &[u32; CELLS], // the weights of the remaining arcs
    cuts: &[u32], // the words that were shown: a set and its amount, pair after pair
    n: u32, // how many vertices there are
    root: u32, // the one that is in no set
    count: u32, // how many pairs were shown
    kind: u32, // the kind of outcome that was shown
    total: u32, // the total that was shown with it
) -> bool {
    if kind == NONE {
        return is_unentered(table, cuts, n, root, count);
    }
    are_cuts(table, cuts, n, root, count, total)
}
