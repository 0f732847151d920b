// A board with one field changed: document 01's list for 15, and places that nobody may look at.
use crate::records;
use board::{Board, UndoRecord};
use reference::history::RECORDS;
use reference::problem;
use reference::problem::{MAX_BUDGET, MAX_VERTICES, MAX_WEIGHT, NO_ARC};
use reference::random::Random;

// The changes: 9 of a number, 6 of a cell and 6 of a record are damage; 7 are none.
pub const KINDS: u32 = 28;

const CELLS_FROM: u32 = 9;

const RECORDS_FROM: u32 = 15;

const SOUND_FROM: u32 = 21;

#[derive(Clone, Copy)]
pub struct Damaged {
    pub is_damaged: bool,
    pub board: Board,
}

// A vertex below n other than v, for n of 2 or more.
fn other_vertex(g: Random, n: u32, v: u32) -> u32 {
    if n < 2 {
        return 0;
    }
    v.wrapping_add(g.below(n - 1).wrapping_add(1)) % n
}

#[derive(Clone, Copy)]
pub struct Arc {
    pub tail: u32,
    pub head: u32,
}

// An arc that there can be, for n of 2 or more. It takes two steps of the generator.
pub fn some_arc(g: Random, n: u32, root: u32) -> Arc {
    let head = other_vertex(g, n, root);
    Arc {
        tail: other_vertex(g.next(), n, head),
        head,
    }
}

// The board with a budget in the place of every record that names an arc.
fn without_records_of(b: Board, tail: u32, head: u32) -> Board {
    let mut c = b;
    for k in 0..RECORDS {
        let r = b.records[k];
        if records::names(r, tail, head) {
            c.records[k] = records::budget_record(0);
        }
    }
    c
}

// The board with that in a cell. Where it is no arc then, no record names it, which would be damage of its own.
pub fn with_cell(b: Board, tail: u32, head: u32, weight: u32, mark: u8) -> Board {
    let mut c = b;
    let at = problem::cell(tail, head);
    c.weights[at] = weight;
    c.marks[at] = mark;
    if weight == NO_ARC {
        return without_records_of(c, tail, head);
    }
    c
}

fn with_budget(b: Board, budget: u32) -> Board {
    let mut c = b;
    c.budget = budget;
    c
}

// One record of the history replaced; one is made if there is none.
pub fn with_record(b: Board, g: Random, record: UndoRecord) -> Board {
    let mut c = b;
    if c.count == 0 {
        c.count = 1;
    }
    let below = g.below((c.count % (RECORDS + 1)) as u32);
    c.records[(below % RECORDS as u32) as usize] = record;
    c
}

// A number out of its range: of vertices, of the root, a budget, a number of records.
fn number_damaged(b: Board, kind: u32) -> Board {
    let mut c = b;
    match kind {
        0 => c.n = 0,
        1 => c.n = MAX_VERTICES + 1,
        2 => c.n = 4294967295,
        3 => c.root = c.n,
        4 => c.root = 4294967295,
        5 => c.budget = MAX_BUDGET + 1,
        6 => c.budget = 4294967295,
        7 => c.count = RECORDS + 1,
        _ => c.count = 18446744073709551615,
    }
    c
}

// The weight and the mark of a cell that can hold an arc: a weight out of its range, a mark out of its range, a mark on
// no arc.
fn bad_weight(kind: u32) -> u32 {
    match kind {
        9 => NO_ARC + 1,
        10 => 4294967295,
        11 => MAX_WEIGHT,
        12 => 5,
        _ => NO_ARC,
    }
}

fn bad_mark(kind: u32) -> u8 {
    match kind {
        11 => 3,
        12 => 255,
        13 => 1,
        14 => 2,
        _ => 0,
    }
}

// A record that names no arc, or restores a value out of its range; and two that are lawful.
fn nth_record(kind: u32, n: u32, root: u32, tail: u32, head: u32) -> UndoRecord {
    match kind {
        15 => records::mark_record(n, head, 0),
        16 => records::mark_record(tail, tail, 0),
        17 => records::mark_record(head, root, 0),
        18 => records::mark_record(tail, head, 0),
        19 => records::mark_record(tail, head, 3),
        20 => records::budget_record(MAX_BUDGET + 1),
        24 => records::mark_record(tail, head, 2),
        _ => records::budget_record(MAX_BUDGET),
    }
}

// The board with that record, and with an arc at the cell that it names, or with none.
fn record_changed(b: Board, kind: u32, g: Random, tail: u32, head: u32) -> Board {
    let record = nth_record(kind, b.n, b.root, tail, head);
    match kind {
        18 => with_record(with_cell(b, tail, head, NO_ARC, 0), g, record),
        19 | 24 => with_record(with_cell(b, tail, head, 5, 0), g, record),
        _ => with_record(b, g, record),
    }
}

// Rubbish in a place past the count.
fn with_rubbish_record(b: Board) -> Board {
    let mut c = b;
    if c.count < RECORDS {
        let at = c.count;
        c.records[at] = records::mark_record(250, 251, 252);
    }
    c
}

// What is no damage: rubbish where no arc can be and past the count, a lawful record, the dearest price and the
// greatest budget.
fn sound(b: Board, kind: u32, g: Random, tail: u32, head: u32) -> Board {
    match kind {
        21 => with_cell(b, tail, tail, NO_ARC + 1, 3),
        22 => with_cell(b, tail, b.root, 4294967295, 255),
        23 => with_rubbish_record(b),
        26 => with_cell(b, tail, head, MAX_WEIGHT, 2),
        27 => with_budget(b, MAX_BUDGET),
        _ => record_changed(b, kind, g, tail, head),
    }
}

// The board with the change of that kind, at an arc that the generator picks.
fn changed(b: Board, kind: u32, g: Random) -> Board {
    let arc = some_arc(g, b.n, b.root);
    let tail = arc.tail;
    let head = arc.head;
    let h = g.next().next();
    if kind < CELLS_FROM {
        return number_damaged(b, kind);
    }
    if kind < RECORDS_FROM {
        return with_cell(b, tail, head, bad_weight(kind), bad_mark(kind));
    }
    if kind < SOUND_FROM {
        return record_changed(b, kind, h, tail, head);
    }
    sound(b, kind, h, tail, head)
}

pub fn nth_damage(b: Board, kind: u32, g: Random) -> Damaged {
    Damaged {
        is_damaged: kind < SOUND_FROM,
        board: changed(b, kind, g),
    }
}
