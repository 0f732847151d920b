// Cards, bit by bit: document 01, "The rig card"; plain cards, where those of 02, A8 are meant too. The bits of such a
// card stand on a history card too (history_card.rt), from its seventh on; so what is put and read here begins at any
// bit.
use crate::access::{front, narrow};
use crate::fields::{field, put_field, whole_bytes};
use crate::problem;
use crate::problem::{CELLS, MAX_BUDGET, MAX_VERTICES, NO_ARC, NO_MARK, Problem, STRIDE};
use crate::refusals::{
    BAD_CARD_BUDGET, BAD_COUNT, BAD_FILLING, BAD_LENGTH, BAD_MARK, BAD_ROOT, CARD_SHORT,
};

// Room for longer cards than any that opens: "the longest is 5,174 bytes" (02, A8).
pub const CARD_ROOM: usize = 5200;

// A card and its length in bytes.
#[derive(Clone, Copy)]
pub struct Card {
    pub bytes: [u8; CARD_ROOM],
    pub length: u32,
}

impl Card {
    pub fn as_slice(&self) -> &[u8] {
        front(&self.bytes, self.length as usize)
    }
}

// The widths in bits: "positions 6 bits, root 5, budget 25", and of a cell "price 20 bits, mark 2".
pub const N_BITS: u32 = 6;

const ROOT_BITS: u32 = 5;

const BUDGET_BITS: u32 = 25;

const CELL_BITS: u32 = 22;

// Where the root, the budget and the cells begin, counted from the card's first bit.
const ROOT_AT: u32 = N_BITS;

const BUDGET_AT: u32 = ROOT_AT + ROOT_BITS;

const CELLS_AT: u32 = BUDGET_AT + BUDGET_BITS;

// "That is 36 + 22 times (n − 1) squared bits."
pub fn bits_of(n: u32) -> u32 {
    let others = (n % 64 + 63) % 64;
    CELLS_AT.wrapping_add(CELL_BITS.wrapping_mul(others.wrapping_mul(others)))
}

pub fn bytes_of(n: u32) -> u32 {
    whole_bytes(bits_of(n))
}

// "price 20 bits, mark 2", as one number.
fn cell_value(weight: u32, mark: u8) -> u32 {
    weight % 1048576 * 4 + u32::from(mark) % 4
}

// Sets the bits of one cell, if it is on the card, and says where the next one begins.
fn put_cell(out: &mut [u8], at: u32, on_card: bool, value: u32) -> u32 {
    if !on_card {
        return at;
    }
    put_field(out, at, CELL_BITS, value);
    at.wrapping_add(CELL_BITS)
}

// "for each feeder upwards, each fed position upwards, leaving out feeder = fed and fed = root: price 20 bits, mark 2."
fn put_cells(out: &mut [u8], from: u32, p: Problem) {
    let mut at = from;
    for k in 0..CELLS as u32 {
        let on_card = problem::can_hold(p.n, p.root, k / STRIDE, k % STRIDE);
        let value = cell_value(p.weights[k as usize], p.marks[k as usize]);
        at = put_cell(out, at, on_card, value);
    }
}

// "positions 6 bits, root 5, budget 25; then" the cells, from a bit on, into zeros.
pub fn put_plain_bits(out: &mut [u8], from: u32, p: Problem) {
    put_field(out, from, N_BITS, p.n);
    put_field(out, from.wrapping_add(ROOT_AT), ROOT_BITS, p.root);
    put_field(out, from.wrapping_add(BUDGET_AT), BUDGET_BITS, p.budget);
    put_cells(out, from.wrapping_add(CELLS_AT), p);
}

// The card of an instance. "Zero bits fill the last byte."
pub fn build(p: Problem) -> Card {
    let mut bytes = [0; CARD_ROOM];
    put_plain_bits(&mut bytes, 0, p);
    Card {
        bytes,
        length: bytes_of(p.n),
    }
}

// "7: mark 3, or a mark other than 0 on no link". "6 is retired" (02, A9): of the numbers of 20 bits the greatest is no
// link, and every other one is a price.
fn check_cell(cell: u32) -> Result<(), u32> {
    let weight = cell / 4;
    let mark = cell % 4;
    if weight == NO_ARC && mark != 0 || mark == u32::from(NO_MARK) {
        return Err(BAD_MARK);
    }
    Ok(())
}

// The instance on a card with this header, whose cells begin at a bit, with 0 in the cells that can hold no arc;
// refused by "the first faulty cell in card order".
fn read_cells(card: &[u8], from: u32, n: u32, root: u32, budget: u32) -> Result<Problem, u32> {
    let mut p = Problem {
        n,
        root,
        budget,
        weights: [0; CELLS],
        marks: [0; CELLS],
    };
    let mut at = from;
    for k in 0..CELLS as u32 {
        if problem::can_hold(n, root, k / STRIDE, k % STRIDE) {
            let cell = field(card, at, CELL_BITS);
            check_cell(cell)?;
            p.weights[k as usize] = cell / 4;
            p.marks[k as usize] = narrow(cell % 4);
            at = at.wrapping_add(CELL_BITS);
        }
    }
    Ok(p)
}

// 4: "root not below positions"; 5: "budget field above" the limit.
fn check_ranges(n: u32, root: u32, budget: u32) -> Result<(), u32> {
    if n <= root {
        return Err(BAD_ROOT);
    }
    if MAX_BUDGET < budget {
        return Err(BAD_CARD_BUDGET);
    }
    Ok(())
}

// What the bits of a plain card say that begin at a bit, with the answers 4, 5 and 7 in that order.
pub fn read_plain_bits(card: &[u8], from: u32) -> Result<Problem, u32> {
    let n = field(card, from, N_BITS);
    let root = field(card, from.wrapping_add(ROOT_AT), ROOT_BITS);
    let budget = field(card, from.wrapping_add(BUDGET_AT), BUDGET_BITS);
    check_ranges(n, root, budget)?;
    read_cells(card, from.wrapping_add(CELLS_AT), n, root, budget)
}

// 1: "card under 5 bytes".
pub fn check_start(card: &[u8]) -> Result<(), u32> {
    if card.len() < 5 {
        return Err(CARD_SHORT);
    }
    Ok(())
}

// 2: "positions field 0 or 33 to 63".
pub fn check_count(n: u32) -> Result<(), u32> {
    if n == 0 || MAX_VERTICES < n {
        return Err(BAD_COUNT);
    }
    Ok(())
}

// 3: "card length not the needed one".
fn check_length(card: &[u8], n: u32) -> Result<(), u32> {
    if card.len() != bytes_of(n) as usize {
        return Err(BAD_LENGTH);
    }
    Ok(())
}

// 8 where one of the bits from here up to the next whole byte, or past it, is 1.
pub fn check_filling(card: &[u8], from: u32) -> Result<(), u32> {
    if field(card, from, 8) != 0 {
        return Err(BAD_FILLING);
    }
    Ok(())
}

// What a card says, or the number of the refusal: "1 to 5 in that order; then the first faulty cell in card order ..;
// then 8".
pub fn read(card: &[u8]) -> Result<Problem, u32> {
    let n = field(card, 0, N_BITS);
    check_start(card)?;
    check_count(n)?;
    check_length(card, n)?;
    let p = read_plain_bits(card, 0)?;
    check_filling(card, bits_of(n))?;
    Ok(p)
}
