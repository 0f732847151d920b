// The board: an instance with the history of what was replaced on it, lent to whoever sets or reads it. Commands set
// one mark, several or the budget and record what they replaced, undo restores it; a board that is invalid is refused
// before anything else is judged, and a refused one stays as it was. Everything is held against the model of the crate
// `commands`, by the definitions of specs/ModelOf.antt and specs/Calls.antt.
#![tactic(auto)]

pub mod valid; // valid.rt: whether a board is valid
pub mod changes; // changes.rt: what a command comes to on a board
pub mod setters; // setters.rt: the record that set a mark
pub mod calls; // calls.rt: the commands and undo
pub mod create; // create.rt: a new board, and the blank one

use instance::limits::{CELLS, MAX_RECORDS};
use instance::{Mark, Vertex};

// What a command replaced: tail, head and mark of an arc; or the budget; or tail, heads and marks of several arcs, the
// heads as a set and their marks two bits a head, head h at bits 2h and 2h + 1. Small, since a board holds 200 of them:
// tail and head are below 32 where it is written. What a record means has one name in the specs, `replaced_of`.
#[derive(Clone, Copy)]
pub enum Replaced {
    OldMark(u8, u8, u8),
    OldBudget(u32),
    OldMarks(u8, u32, u64),
}

#[derive(Clone, Copy)]
pub struct UndoRecord {
    pub replaced: Replaced,
}

// Weights and marks have a stride of 32. The first `count` records are the history, the latest last; the places after
// them decide nothing, and neither does a cell where no arc can be.
#[derive(Clone, Copy)]
pub struct Board {
    pub n: u32,
    pub root: u32,
    pub budget: u32,
    pub weights: [u32; CELLS],
    pub marks: [u8; CELLS],
    pub records: [UndoRecord; MAX_RECORDS],
    pub count: usize,
}

// What a call on a board comes to, as the definitions and the tests speak of it: 0 or the number of the refusal, and
// the board that is left.
#[derive(Clone, Copy)]
pub struct Answered {
    pub answer: u32,
    pub board: Board,
}

// A command as a value, for lists of commands.
#[derive(Clone, Copy)]
pub enum Command {
    SetMark(Mark, Vertex, Vertex),
    SetMarks(Mark, Vertex, u32),
    SetBudget(u32),
    TakeBack,
}
