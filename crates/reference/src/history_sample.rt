// Random records of an instance, of every kind; and records with one thing wrong, each of which is 27 (document 02,
// A8).
use crate::access::narrow;
use crate::history::{History, Kind, RECORDS, Record};
use crate::problem::{CELLS, MAX_BUDGET, MAX_VERTICES, NO_ARC, NO_MARK, Problem, STRIDE};
use crate::random::Random;
use crate::{group, problem, shown};

// The first cell with an arc from one on; after the last comes the first again.
fn arc_from(p: &Problem, start: u32) -> Option<u32> {
    (0..CELLS as u32)
        .map(|k| start.wrapping_add(k) % CELLS as u32)
        .find(|at| p.is_arc(at / STRIDE, at % STRIDE))
}

// An arc of the instance, if it has one.
fn some_arc(p: &Problem, g: Random) -> Option<u32> {
    let tail = g.below(p.n);
    let head = g.next().below(p.n);
    arc_from(p, problem::cell(tail, head) as u32)
}

fn some_mark(g: Random) -> u8 {
    narrow(g.below(3))
}

// Any marks at the heads of a group.
fn with_some_marks(group: Record, seed: Random) -> Record {
    let mut r = group;
    let mut g = seed;
    for head in 0..MAX_VERTICES {
        if group.names(head) {
            r = r.with_mark(head, some_mark(g));
            g = g.next();
        }
    }
    r
}

// Some of the arcs from a tail, with that to a head, or now and then all of them.
fn some_group(p: &Problem, tail: u32, head: u32, g: Random) -> Record {
    let any = g.next().word() | shown::only(head);
    let set = if g.below(4) == 0 { 4294967295 } else { any };
    let group = Record::of_group(tail, group::links(p, tail, set));
    with_some_marks(group, g.next().next())
}

// A budget: none, a small one, the greatest, any.
fn some_budget(g: Random) -> u32 {
    let after = g.next();
    match g.below(8) {
        0 => 0,
        1 => MAX_BUDGET,
        2 | 3 | 4 => after.below(60),
        _ => after.below(MAX_BUDGET + 1),
    }
}

// A sound record: a link, a group or a budget. It takes up to 40 steps of the generator.
pub fn some_record(p: &Problem, g: Random) -> Record {
    let h = g.next();
    let after = h.next().next();
    match (some_arc(p, h), g.below(3)) {
        (Some(at), 0) => Record::of_link(at / STRIDE, at % STRIDE, some_mark(after)),
        (Some(at), 2) => some_group(p, at / STRIDE, at % STRIDE, after),
        _ => Record::of_budget(some_budget(after)),
    }
}

// So many sound records, by a seed.
pub fn some_history(p: Problem, count: u32, seed: u32) -> History {
    let mut h = History::empty();
    for k in 0..count {
        let g = Random::seeded(seed.wrapping_add(k));
        h = h.with(some_record(&p, g));
    }
    h
}

// How many records the k-th history has: none, one, a few, up to 200, and 200.
pub fn nth_count(k: u32, g: Random) -> u32 {
    match k % 8 {
        0 => 0,
        1 => 1,
        2 => RECORDS as u32,
        3 => g.below(RECORDS as u32 + 1),
        _ => g.below(12),
    }
}

// A bad record, on an instance that may lack the arc that it names.
#[derive(Clone, Copy)]
pub struct Bad {
    pub problem: Problem,
    pub bad: Record,
}

// The kinds of a bad record: 8 of a link or a budget, kind 3, and 8 of a group.
pub const BAD_KINDS: u32 = 17;

const NO_ARC_LINK: u32 = 4;

const NO_ARC_MEMBER: u32 = 14;

// A link whose feeder or fed position is not there, which feeds itself, or the root; none; with mark 3. A budget above
// the limit, and the greatest of 25 bits. Kind 3.
fn bad_single(kind: u32, n: u32, root: u32, tail: u32, head: u32) -> Record {
    match kind {
        0 => Record::of_link(n, head, 0),
        1 => Record::of_link(tail, n, 0),
        2 => Record::of_link(tail, tail, 0),
        3 => Record::of_link(tail, root, 0),
        NO_ARC_LINK => Record::of_link(tail, head, 0),
        5 => Record::of_link(tail, head, NO_MARK),
        6 => Record::of_budget(MAX_BUDGET + 1),
        7 => Record::of_budget(33554431),
        _ => Record::new(Kind::None, 0, 0),
    }
}

// A group whose feeder is not there; of nothing; with a member that is not there, or the last of 32, the root, the
// feeder itself, or one that is no link; with mark 3.
fn bad_group(kind: u32, n: u32, root: u32, good: Record, head: u32) -> Record {
    let mut r = good;
    match kind {
        9 => r.first = n,
        10 => return Record::of_group(good.first, 0),
        11 => r.second = good.second | shown::only(n),
        12 => r.second = good.second | shown::only(MAX_VERTICES - 1),
        13 => r.second = good.second | shown::only(root),
        NO_ARC_MEMBER => r.second = good.second | shown::only(head),
        15 => r.second = good.second | shown::only(good.first),
        _ => return good.with_mark(head, NO_MARK),
    }
    r
}

// An instance of 2 to 31 vertices whose cell there holds an arc, or for two of the kinds none; and a bad record of it.
pub fn nth_bad(p: Problem, kind: u32, tail: u32, head: u32, g: Random) -> Bad {
    let mut q = p;
    let at = problem::cell(tail, head);
    q.weights[at] = if kind == NO_ARC_LINK || kind == NO_ARC_MEMBER {
        NO_ARC
    } else {
        5
    };
    q.marks[at] = 0;
    let bad = if kind < 9 {
        bad_single(kind, q.n, q.root, tail, head)
    } else {
        bad_group(kind, q.n, q.root, some_group(&q, tail, head, g), head)
    };
    Bad { problem: q, bad }
}
