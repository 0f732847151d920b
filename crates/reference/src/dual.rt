// A planner of another kind than the product's, for plans that it did not make: Fulkerson's two phases. No cycle is
// drawn together and nothing is planned again. First sets are charged: as long as the root does not reach every vertex
// by arcs that cost nothing more, a smallest set that no such arc enters is charged with the least cost that enters it.
// Then a tree is grown from the root by arcs that cost nothing, those first that came to nothing first: so each set is
// entered once.
use crate::access::narrow;
use crate::certificate::Certificate;
use crate::problem::{ABSENT, CELLS, MAX_VERTICES, STRIDE};
use crate::shown;
use crate::shown::{NO_PARENT, PAIRS};

const HEADS: usize = MAX_VERTICES as usize;

// What each arc still costs; after how many charges it came to cost nothing; and the pairs so far.
#[derive(Clone, Copy)]
struct Work {
    costs: [u32; CELLS],
    since: [u32; CELLS],
    certificate: Certificate,
}

// For each head the tails of the arcs into it that cost nothing.
fn zero_tails(costs: &[u32; CELLS]) -> [u32; HEADS] {
    let mut tails = [0; HEADS];
    for k in 0..CELLS as u32 {
        if costs[k as usize] == 0 {
            let head = (k % STRIDE) as usize;
            tails[head] |= shown::only(k / STRIDE);
        }
    }
    tails
}

// A set with the tails of the arcs into it that cost nothing.
fn widened(tails: &[u32; HEADS], set: u32) -> u32 {
    let mut wider = set;
    for head in 0..MAX_VERTICES {
        if shown::holds(set, head) {
            wider |= tails[head as usize];
        }
    }
    wider
}

// The vertices that reach a vertex at no cost, itself among them: no arc that costs nothing enters them.
fn reaching(tails: &[u32; HEADS], vertex: u32) -> u32 {
    let mut set = shown::only(vertex);
    for step in 0..MAX_VERTICES {
        let wider = widened(tails, set);
        if wider == set {
            return set;
        }
        set = wider;
    }
    set
}

// The smallest of these sets without the root, of a vertex below n; 0 where the root reaches them all.
fn smallest(tails: &[u32; HEADS], n: u32, root: u32) -> u32 {
    let mut best: u32 = 0;
    for v in 0..n {
        let set = reaching(tails, v);
        if !shown::holds(set, root) && (best == 0 || set.count_ones() < best.count_ones()) {
            best = set;
        }
    }
    best
}

// The least cost of an arc into a set, ABSENT where none enters it.
fn least_into(costs: &[u32; CELLS], set: u32) -> u32 {
    let mut least = ABSENT;
    for k in 0..CELLS as u32 {
        if shown::enters(set, k / STRIDE, k % STRIDE) && costs[k as usize] < least {
            least = costs[k as usize];
        }
    }
    least
}

// A set charged: each arc into it costs so much less, and the pair is written down.
fn lowered(work: Work, set: u32, amount: u32) -> Work {
    let before = work.certificate;
    let mut w = work;
    let round = before.count.wrapping_add(1);
    for k in 0..CELLS as u32 {
        let at = k as usize;
        let cost = w.costs[at];
        if cost != ABSENT && shown::enters(set, k / STRIDE, k % STRIDE) {
            w.costs[at] = cost.wrapping_sub(amount);
            if cost == amount {
                w.since[at] = round;
            }
        }
    }
    w.certificate = before.with_pair(set, amount);
    w
}

// One charge, where the root does not reach every vertex yet and some arc enters the set.
fn with_charge(work: Work, n: u32, root: u32) -> Work {
    let tails = zero_tails(&work.costs);
    let set = smallest(&tails, n, root);
    let amount = least_into(&work.costs, set);
    if set == 0 || amount == ABSENT {
        return work;
    }
    lowered(work, set, amount)
}

// Whether an arc costs nothing, and leads from the reached vertices to another.
fn leads_on(costs: &[u32; CELLS], k: u32, reached: u32) -> bool {
    let at = (k % CELLS as u32) as usize;
    if costs[at] != 0 {
        return false;
    }
    if shown::holds(reached, k / STRIDE) {
        return !shown::holds(reached, k % STRIDE);
    }
    false
}

// Of these arcs the one that came to cost nothing first; CELLS where there is none.
fn first_arc(costs: &[u32; CELLS], since: &[u32; CELLS], reached: u32) -> u32 {
    let mut best = CELLS as u32;
    let mut time = ABSENT;
    for k in 0..CELLS as u32 {
        if leads_on(costs, k, reached) && since[k as usize] < time {
            best = k;
            time = since[k as usize];
        }
    }
    best
}

// The plan without a tree yet: 255 at each of the n vertices.
fn bare(pairs: Certificate, n: u32) -> Certificate {
    let mut o = pairs;
    for v in 0..n {
        o = o.with_parent(v, NO_PARENT);
    }
    o
}

// The tree, grown from the root.
fn grown(work: Work, n: u32, root: u32) -> Certificate {
    let mut o = bare(work.certificate, n);
    let mut reached = shown::only(root);
    for step in 1..MAX_VERTICES {
        let k = first_arc(&work.costs, &work.since, reached);
        if k < CELLS as u32 {
            o = o.with_parent(k % STRIDE, narrow(k / STRIDE));
            reached |= shown::only(k % STRIDE);
        }
    }
    o
}

// A cheapest tree, its total and the cuts that prove it, by the table of the remaining arcs. Where there is no tree the
// total is ABSENT.
pub fn plan(table: &[u32; CELLS], n: u32, root: u32) -> Certificate {
    let mut work = Work {
        costs: *table,
        since: [0; CELLS],
        certificate: Certificate::empty(),
    };
    for round in 0..PAIRS {
        work = with_charge(work, n, root);
    }
    let mut o = grown(work, n, root);
    let parents = o.parents;
    o.total = shown::tree_total(table, &parents, n, root);
    o
}
