// The widths of what a history card has besides the bits of a plain card, in bits, as the program has them;
// specs/RecordWidths.antt of history_format has them for the contracts.
use card::widths::{BUDGET_WIDTH, MARK_WIDTH, N_WIDTH};

// The field that tells a history card from a plain one, and what stands there.
pub const MARKER_WIDTH: usize = N_WIDTH;

pub const HISTORY_MARKER: u32 = 63;

pub const COUNT_WIDTH: usize = 8;

pub const KIND_WIDTH: usize = 2;

// The kinds of a record: a mark, the budget, the marks of several arcs.
pub const MARK_KIND: u32 = 0;

pub const BUDGET_KIND: u32 = 1;

pub const MARKS_KIND: u32 = 2;

pub const VERTEX_WIDTH: usize = 5;

pub const HEADS_WIDTH: usize = 32;

// Where the fields of a record begin behind its own beginning, and how long it is.
pub const HEAD_START: usize = KIND_WIDTH + VERTEX_WIDTH;

pub const MARK_START: usize = HEAD_START + VERTEX_WIDTH;

pub const MARK_RECORD_WIDTH: usize = MARK_START + MARK_WIDTH;

pub const BUDGET_RECORD_WIDTH: usize = KIND_WIDTH + BUDGET_WIDTH;

pub const MARKS_START: usize = HEAD_START + HEADS_WIDTH;
