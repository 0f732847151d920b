// The numbers of document 02, A11, and what two lists are refused by. A cell's own fault and an unequal pair are looked
// for apart, each to its first cell; the earlier of the two cells decides. They stay numbers, no enum: the document
// gives numbers, and these are what is counted and what the product's answers are held to.
use crate::places;
use crate::places::entry;

pub const BAD_COUNT: u32 = 29; // "29 for a count outside 1 to 32"

pub const TOO_SHORT: u32 = 14; // "then 14": a list or a buffer has fewer than n times n places

pub const BAD_CELL: u32 = 30; // "30 for a price or mark out of range or a marked run that has no price"

pub const UNEQUAL: u32 = 31; // "31 for an unequal pair, met at its first cell"

pub const MAX_VERTICES: u32 = 32;

// The price of a pair that is no run, above all prices (A9).
pub const NO_RUN: u32 = 1048575;

pub const FREE: u8 = 0;

pub const PINNED: u8 = 1;

pub const BANNED: u8 = 2;

// Whether a cell off the diagonal has a fault of its own.
fn is_bad(weights: &[u32], marks: &[u8], n: u32, cell: u32) -> bool {
    let weight = entry(weights, cell);
    let mark = entry(marks, cell);
    let is_marked_gap = weight == NO_RUN && mark != FREE;
    (NO_RUN < weight || BANNED < mark || is_marked_gap)
        && places::row(n, cell) != places::column(n, cell)
}

// Whether a cell and its mirror are an unequal pair.
fn is_unequal(weights: &[u32], marks: &[u8], n: u32, cell: u32) -> bool {
    let other = places::mirror(n, cell);
    entry(weights, cell) != entry(weights, other) || entry(marks, cell) != entry(marks, other)
}

// The number of the refusal of two lists with two buffers of these lengths, if they are refused.
pub fn check(
    weights: &[u32],
    marks: &[u8],
    n: u32,
    states: u32,
    replacements: u32,
) -> Result<(), u32> {
    if n == 0 || MAX_VERTICES < n {
        return Err(BAD_COUNT);
    }
    let all = places::cells(n);
    if states < all || replacements < all {
        return Err(TOO_SHORT);
    }
    if weights.len() < all as usize || marks.len() < all as usize {
        return Err(TOO_SHORT);
    }
    let bad = (0..all).find(|&cell| is_bad(weights, marks, n, cell));
    let unequal = (0..all).find(|&cell| is_unequal(weights, marks, n, cell));
    // "30 .. before 31" within a cell
    match (bad, unequal) {
        (None, None) => Ok(()),
        (Some(x), Some(y)) if y < x => Err(UNEQUAL),
        (Some(_), _) => Err(BAD_CELL),
        (None, Some(_)) => Err(UNEQUAL),
    }
}
