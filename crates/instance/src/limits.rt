// The numbers of documents 01 and 02, as the program has them; specs/Limits.antt has them for the contracts.

pub const MAX_VERTICES: u32 = 32;

// A place for each vertex in an array.
pub const VERTICES: usize = MAX_VERTICES as usize;

pub const MAX_WEIGHT: u32 = 1_048_574;

// A weight that means that there is no arc.
pub const NO_ARC: u32 = 1_048_575;

pub const MAX_BUDGET: u32 = 32_505_794;

pub const FREE: u8 = 0;

pub const PINNED: u8 = 1;

pub const BANNED: u8 = 2;

// Stands for the parent of the root.
pub const NO_PARENT: u8 = 255;

pub const MAX_RECORDS: usize = 200;

// The largest limit on the tries of a listing.
pub const MAX_TRIES: u32 = 1_000_000;

// Weights and marks are kept with a stride of 32, whatever n is.
pub const CELLS: usize = VERTICES * VERTICES;

pub const MAX_CUTS: u32 = 61;

// Two words for each cut, a set and a value.
pub const CUT_WORDS: usize = 2 * MAX_CUTS as usize;
