// The records of a board as the reference holds them, and boards with the reference's records.
use crate::{boards, records};
use board::{Board, Replaced, UndoRecord};
use reference::history::{History, Kind, Record};
use reference::problem::{CELLS, MAX_VERTICES, Problem};

// The marks that a board's record has at the heads of a group. What it has at others is not looked at.
fn with_marks(group: Record, marks: u64) -> Record {
    let mut r = group;
    for head in 0..MAX_VERTICES {
        if group.names(head) {
            r = r.with_mark(head, records::mark_at(marks, head));
        }
    }
    r
}

pub fn of_record(u: UndoRecord) -> Record {
    match u.replaced {
        Replaced::OldMark(tail, head, mark) => Record::of_link(
            u32::from(tail),
            u32::from(head),
            mark,
        ),
        Replaced::OldMarks(tail, heads, marks) => with_marks(
            Record::of_group(u32::from(tail), heads),
            marks,
        ),
        Replaced::OldBudget(budget) => Record::of_budget(budget),
    }
}

// All that a board has recorded.
pub fn of_board(b: Board) -> History {
    let mut h = History::empty();
    for u in b.records.iter().take(b.count) {
        h = h.with(of_record(*u));
    }
    h
}

// The marks of a group's record two bits a head, and these bits at the heads that it does not name.
fn marks_of(group: Record, others: u64) -> u64 {
    let mut marks = others;
    for head in 0..MAX_VERTICES {
        if group.names(head) {
            marks = records::with_mark_at(marks, head, group.mark_at(head));
        }
    }
    marks
}

pub fn undo_record(r: Record, others: u64) -> UndoRecord {
    match r.kind {
        Kind::Link => records::mark_record(r.first, r.second, r.mark_at(r.second)),
        Kind::Budget => records::budget_record(r.first),
        _ => records::marks_record(r.first, r.second, marks_of(r, others)),
    }
}

// A board with an instance and records, with these bits wherever a group's record is not looked at. The places past the
// count hold rubbish.
pub fn board_with(p: Problem, h: History, others: u64) -> Board {
    let mut b = boards::of_problem(p);
    for (place, r) in b.records.iter_mut().zip(h.recorded()) {
        *place = undo_record(*r, others);
    }
    b.count = h.count as usize;
    b
}

// Whether a board has that instance where a link can be, and these records.
pub fn is_board(b: Board, p: Problem, h: History) -> bool {
    boards::alike_problems(&p, &boards::problem_of(b))
        && b.count == h.count as usize
        && of_board(b).is_same(&h)
}

// Whether a board is the blank one, which stands for none: 0 in every field and cell, and nothing recorded.
pub fn is_blank(b: Board) -> bool {
    let blank = Problem {
        n: 0,
        root: 0,
        budget: 0,
        weights: [0; CELLS],
        marks: [0; CELLS],
    };
    b.count == 0 && blank == boards::problem_of(b)
}
