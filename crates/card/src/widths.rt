// The widths of a card's fields in bits, as the program has them; specs/Widths.antt of card_format has them for the
// contracts.

// The header.
pub const N_WIDTH: usize = 6;

pub const ROOT_WIDTH: usize = 5;

pub const BUDGET_WIDTH: usize = 25;

pub const HEADER_WIDTH: usize = N_WIDTH + ROOT_WIDTH + BUDGET_WIDTH;

// A cell.
pub const WEIGHT_WIDTH: usize = 20;

pub const MARK_WIDTH: usize = 2;

pub const CELL_WIDTH: usize = WEIGHT_WIDTH + MARK_WIDTH;
