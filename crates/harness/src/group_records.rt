// Records of group presses, written by hand: sound ones with any marks, and any bits at the heads that they do not
// name; and such a record with one thing wrong. "a group record naming a non-link, or nothing, is damage (15)" (02,
// A5).
use crate::damage::Damaged;
use crate::{boards, damage, records};
use board::{Board, UndoRecord};
use reference::history::RECORDS;
use reference::problem::{BANNED, MAX_VERTICES, NO_ARC, NO_MARK};
use reference::random::Random;
use reference::{access, group, shown};

// The changes of a board: 8 are damage, 3 are none.
pub const KINDS: u32 = 11;

const NO_ARC_AT_HEAD: u32 = 6;

const SOUND_FROM: u32 = 8;

const PAST_THE_COUNT: u32 = 10;

// A record by its parts.
#[derive(Clone, Copy)]
pub struct GroupRecord {
    pub tail: u32,
    pub heads: u32,
    pub marks: u64,
}

pub fn record_of(r: GroupRecord) -> UndoRecord {
    records::marks_record(r.tail, r.heads, r.marks)
}

// Any lawful marks at the heads of a set, and any bits at the others.
fn some_marks(seed: Random, heads: u32) -> u64 {
    let mut marks = seed.state;
    let mut g = seed.next();
    for head in 0..MAX_VERTICES {
        if shown::holds(heads, head) {
            marks = records::with_mark_at(marks, head, access::narrow(g.below(3)));
            g = g.next();
        }
    }
    marks
}

// A sound record: some of the arcs from a tail, with that to a head, which is one of them.
pub fn some_record(b: Board, tail: u32, head: u32, g: Random) -> GroupRecord {
    let set = g.word() | shown::only(head);
    let heads = group::links(&boards::problem_of(b), tail, set);
    GroupRecord {
        tail,
        heads,
        marks: some_marks(g.next(), heads),
    }
}

// The record with one head more, whose mark is free.
fn with_head(r: GroupRecord, head: u32) -> GroupRecord {
    let mut s = r;
    s.heads = r.heads | shown::only(head);
    s.marks = records::with_mark_at(r.marks, head, 0);
    s
}

// The record with one head that is not there, or where there are all 32 vertices with such a tail.
fn past_the_vertices(r: GroupRecord, n: u32) -> GroupRecord {
    let mut s = r;
    if n < MAX_VERTICES {
        return with_head(r, n.wrapping_add(r.heads % (MAX_VERTICES - n)));
    }
    s.tail = n;
    s
}

// The record with one thing wrong: the tail, no head, a head that is not there, the root, the tail itself, a number
// that is no mark. The other kinds need no change of it.
fn changed(r: GroupRecord, kind: u32, n: u32, root: u32, head: u32) -> GroupRecord {
    let mut s = r;
    match kind {
        0 => s.tail = n,
        1 => s.tail = 255,
        2 => s.heads = 0,
        3 => return past_the_vertices(r, n),
        4 => return with_head(r, root),
        5 => return with_head(r, r.tail),
        7 => s.marks = records::with_mark_at(r.marks, head, NO_MARK),
        9 => return only_head(r, head),
        _ => return r,
    }
    s
}

// A record of one head, and numbers that are no marks at all the others.
fn only_head(r: GroupRecord, head: u32) -> GroupRecord {
    GroupRecord {
        tail: r.tail,
        heads: shown::only(head),
        marks: records::with_mark_at(18446744073709551615, head, BANNED),
    }
}

// Rubbish in a place past the count.
fn with_group_rubbish(b: Board) -> Board {
    let mut c = b;
    if c.count < RECORDS {
        let at = c.count;
        c.records[at] = records::marks_record(250, 4294967295, 18446744073709551615);
    }
    c
}

// The board with a record of that kind, from a tail to a head and others. The head is made no arc on the board, not in
// the record.
fn with_kind(b: Board, kind: u32, g: Random, tail: u32, head: u32) -> Board {
    let r = changed(some_record(b, tail, head, g), kind, b.n, b.root, head);
    match kind {
        NO_ARC_AT_HEAD => damage::with_record(
            damage::with_cell(b, tail, head, NO_ARC, 0),
            g,
            record_of(r),
        ),
        PAST_THE_COUNT => with_group_rubbish(b),
        _ => damage::with_record(b, g, record_of(r)),
    }
}

// The board with an arc that the generator picks, and the record of that kind.
pub fn nth_damage(b: Board, kind: u32, g: Random) -> Damaged {
    let arc = damage::some_arc(g, b.n, b.root);
    let c = damage::with_cell(b, arc.tail, arc.head, 5, 0);
    let h = g.next().next();
    Damaged {
        is_damaged: kind < SOUND_FROM,
        board: with_kind(c, kind, h, arc.tail, arc.head),
    }
}
