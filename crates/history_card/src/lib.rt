// History cards (02, A8: new cards), read and written: the bits of a plain card and a board's history. They are held
// against the definitions of the crate `history_format`.
#![tactic(auto)]

mod marks; // marks.rt: the marks of a record of several arcs, read and put
pub mod open; // open.rt: a card of any bytes opened as a board, or refused
mod record; // record.rt: one record, read and judged
mod records; // records.rt: the count, the records and the filling, read and judged
mod put; // put.rt: records put into a buffer
mod widths; // widths.rt: the widths of what a record has
pub mod write; // write.rt: a board written into the caller's buffer

// The longest of them: 32 vertices, and 200 records of 31 arcs of the root.
pub const MAX_HISTORY_CARD: usize = 5174;
