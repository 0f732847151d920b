// The rig card: reading and writing.
#![tactic(auto)]

pub mod widths; // widths.rt: the widths of a card's fields
pub mod lengths; // lengths.rt: how many bits and bytes a card has
pub mod cells; // cells.rt: the cells of a card, read and judged
pub mod read; // read.rt: a card of any bytes, read or refused
pub mod write; // write.rt: a card written into the caller's buffer

// The shortest card, of 1 position, and the longest, of 32.
pub const MIN_CARD: usize = 5;

pub const MAX_CARD: usize = 2648;
