// Records of a board's history: made from the reference's numbers, and compared.
use board::{Replaced, UndoRecord};
use reference::problem::{MAX_VERTICES, Problem};
use reference::{access, problem, shown};

// The record of an arc's mark; of the marks of the arcs from a tail into a set of heads; of a budget.
pub fn mark_record(tail: u32, head: u32, mark: u8) -> UndoRecord {
    UndoRecord {
        replaced: Replaced::OldMark(access::narrow(tail), access::narrow(head), mark),
    }
}

pub fn marks_record(tail: u32, heads: u32, marks: u64) -> UndoRecord {
    UndoRecord {
        replaced: Replaced::OldMarks(access::narrow(tail), heads, marks),
    }
}

pub fn budget_record(budget: u32) -> UndoRecord {
    UndoRecord {
        replaced: Replaced::OldBudget(budget),
    }
}

// The mark of a head in the number that holds two bits for each, the lowest for head 0; and the number with another.
pub fn mark_at(marks: u64, head: u32) -> u8 {
    ((marks >> (head % MAX_VERTICES * 2)) % 4) as u8
}

pub fn with_mark_at(marks: u64, head: u32, mark: u8) -> u64 {
    let changed = u32::from(mark_at(marks, head) ^ mark % 4);
    marks ^ u64::from(changed) << (head % MAX_VERTICES * 2)
}

// The marks that an instance has from a tail into a set, and 0 at the other heads.
pub fn marks_into(p: Problem, tail: u32, heads: u32) -> u64 {
    let mut marks = 0;
    for head in 0..MAX_VERTICES {
        if shown::holds(heads, head) {
            let at = problem::cell(tail, head);
            marks = with_mark_at(marks, head, p.marks[at]);
        }
    }
    marks
}

// Whether two records are the same in every bit.
pub fn equal(a: UndoRecord, b: UndoRecord) -> bool {
    match (a.replaced, b.replaced) {
        (Replaced::OldMark(t, h, m), Replaced::OldMark(u, i, n)) => t == u && h == i && m == n,
        (Replaced::OldMarks(t, h, m), Replaced::OldMarks(u, i, n)) => t == u && h == i && m == n,
        (Replaced::OldBudget(x), Replaced::OldBudget(y)) => x == y,
        _ => false,
    }
}

// Whether a record names the arc from a tail to a head.
pub fn names(r: UndoRecord, tail: u32, head: u32) -> bool {
    match r.replaced {
        Replaced::OldMark(t, h, _) => u32::from(t) == tail && u32::from(h) == head,
        Replaced::OldMarks(t, heads, _) => u32::from(t) == tail && shown::holds(heads, head),
        Replaced::OldBudget(_) => false,
    }
}
