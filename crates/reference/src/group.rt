// Group presses of document 02, A5: "one feeder, a set of fed positions as a 32-bit number", bit k for position k; and
// random sets, inside and outside what a group may name.
use crate::problem::{MAX_VERTICES, Problem};
use crate::random::Random;
use crate::refusals::{NO_SUCH_ARC, NO_VERTEX};
use crate::{problem, shown};

// Whether there is "a set bit not below the count".
fn is_outside(n: u32, set: u32) -> bool {
    (0..MAX_VERTICES).any(|vertex| shown::holds(set, vertex) && n <= vertex)
}

// "Members that are no link are skipped": those that are.
pub fn links(p: &Problem, tail: u32, set: u32) -> u32 {
    let mut kept = 0;
    for head in 0..MAX_VERTICES {
        if shown::holds(set, head) && p.is_arc(tail, head) {
            kept |= shown::only(head);
        }
    }
    kept
}

// "9 for a feeder or a set bit not below the count, 10 if no member is a link".
pub fn check(p: &Problem, tail: u32, set: u32) -> Result<(), u32> {
    if p.n <= tail || is_outside(p.n, set) {
        return Err(NO_VERTEX);
    }
    if links(p, tail, set) == 0 {
        return Err(NO_SUCH_ARC);
    }
    Ok(())
}

// The instance with that mark on each arc from a tail into a set.
pub fn marked(p: Problem, tail: u32, set: u32, mark: u8) -> Problem {
    let mut q = p;
    for head in 0..MAX_VERTICES {
        if shown::holds(set, head) {
            q.marks[problem::cell(tail, head)] = mark;
        }
    }
    q
}

// The first member of a set from a vertex on; after the last comes the first again.
pub fn member_from(set: u32, vertex: u32) -> u32 {
    (0..MAX_VERTICES)
        .map(|k| vertex.wrapping_add(k) % MAX_VERTICES)
        .find(|&member| shown::holds(set, member))
        .unwrap_or(vertex)
}

// The set of all n vertices.
fn vertices(n: u32) -> u32 {
    if MAX_VERTICES <= n {
        return 4294967295;
    }
    shown::only(n).wrapping_sub(1)
}

// A set of heads for a tail: nothing, all 32 bits, any 32 bits, every arc and the first vertex that is not there, if
// there is one; the root alone, the tail alone, or some bit for a tail that is not there; all that is no arc; one
// vertex, every arc; mostly any of the vertices.
pub fn some_set(g: Random, p: Problem, tail: u32) -> u32 {
    let n = p.n;
    let any = g.next().word();
    let arcs = links(&p, tail, vertices(n));
    match g.below(32) {
        0 => 0,
        1 => 4294967295,
        2 => any,
        3 => if n < MAX_VERTICES {
            arcs | shown::only(n)
        } else {
            arcs
        },
        4 => shown::only(p.root),
        5 => shown::only(tail),
        6 => vertices(n) ^ arcs,
        7 => shown::only(g.next().below(n)),
        8 | 9 => arcs,
        _ => any & vertices(n),
    }
}
