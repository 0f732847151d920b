// A board that the planner gave, with one fault planted in it: a comparison of boards has to report each of them. And
// what a comparison has to pass over.
use crate::records;
use board::{Board, Replaced, UndoRecord};
use reference::history::RECORDS;
use reference::{group, problem, shown};

// The faults: 5 of the board's fields, then 3 of its latest record.
pub const KINDS: u32 = 8;

pub const RECORDS_FROM: u32 = 5;

pub const MARK: u32 = 0;

pub const BUDGET: u32 = 2;

pub const COUNT: u32 = 3;

const TAIL: u32 = 5;

const HEADS: u32 = 6;

fn other_mark(mark: u8) -> u8 {
    (mark % 3 + 1) % 3
}

// A group's record with another tail, with a head more or less, with another mark at one of its heads.
fn group_changed(tail: u32, heads: u32, marks: u64, kind: u32, head: u32) -> UndoRecord {
    let member = group::member_from(heads, head);
    let other = other_mark(records::mark_at(marks, member));
    match kind {
        TAIL => records::marks_record(tail.wrapping_add(1), heads, marks),
        HEADS => records::marks_record(tail, heads ^ shown::only(head), marks),
        _ => records::marks_record(tail, heads, records::with_mark_at(marks, member, other)),
    }
}

// A single record with another tail, head or mark.
fn mark_changed(tail: u32, head: u32, mark: u8, kind: u32) -> UndoRecord {
    match kind {
        TAIL => records::mark_record(tail.wrapping_add(1), head, mark),
        HEADS => records::mark_record(tail, head.wrapping_add(1), mark),
        _ => records::mark_record(tail, head, other_mark(mark)),
    }
}

fn record_changed(r: UndoRecord, kind: u32, head: u32) -> UndoRecord {
    match r.replaced {
        Replaced::OldMark(t, h, mark) => mark_changed(u32::from(t), u32::from(h), mark, kind),
        Replaced::OldMarks(t, heads, marks) => group_changed(
            u32::from(t),
            heads,
            marks,
            kind,
            head,
        ),
        Replaced::OldBudget(budget) => records::budget_record(budget.wrapping_add(kind)),
    }
}

// The place of the latest record, 0 where there is none.
fn latest(count: usize) -> u32 {
    let c = (count % (RECORDS + 1)) as u32;
    if c == 0 { 0 } else { c - 1 }
}

// The mark of an arc changed, its weight, the budget, the number of records, the mark of the tail's own cell, where no
// arc can be, the latest record.
pub fn with_fault(b: Board, kind: u32, tail: u32, head: u32) -> Board {
    let mut c = b;
    let at = problem::cell(tail, head);
    let own = problem::cell(tail, tail);
    match kind {
        MARK => c.marks[at] = other_mark(c.marks[at]),
        1 => c.weights[at] = c.weights[at].wrapping_add(1),
        BUDGET => c.budget = c.budget.wrapping_add(1),
        COUNT => c.count = c.count % RECORDS + 1,
        4 => c.marks[own] = other_mark(c.marks[own]),
        _ => return with_record_fault(c, kind, head),
    }
    c
}

fn with_record_fault(b: Board, kind: u32, head: u32) -> Board {
    let mut c = b;
    let at = (latest(c.count) % RECORDS as u32) as usize;
    let r = c.records[at];
    c.records[at] = record_changed(r, kind, head);
    c
}

// The board with another tail in the record that stands first past the count, or with no change where all places are
// in use. Nobody may look there, but a list and its single calls leave the same.
pub fn with_fault_past(b: Board, head: u32) -> Board {
    let mut c = b;
    if c.count < RECORDS {
        let at = c.count;
        let r = c.records[at];
        c.records[at] = record_changed(r, TAIL, head);
    }
    c
}

// The record with another mark at a head that it does not name, if it is a group's.
fn with_other_head(r: UndoRecord, head: u32) -> UndoRecord {
    match r.replaced {
        Replaced::OldMark(_, _, _) => r,
        Replaced::OldMarks(t, heads, marks) => {
            let other = group::member_from(heads ^ 4294967295, head);
            let mark = records::mark_at(marks, other) ^ 3;
            records::marks_record(
                u32::from(t),
                heads,
                records::with_mark_at(marks, other, mark),
            )
        }
        Replaced::OldBudget(_) => r,
    }
}

// The board with that in its latest record: no fault, as nobody may look there.
pub fn with_rubbish(b: Board, head: u32) -> Board {
    let mut c = b;
    let at = (latest(c.count) % RECORDS as u32) as usize;
    let r = c.records[at];
    c.records[at] = with_other_head(r, head);
    c
}
