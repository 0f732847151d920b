// A list written: into a text of its own first, and then into the caller's bytes where there is room, so that a refusal
// touches none.
use crate::places::next;
use crate::refusals::{BAD_WEIGHT, BUFFER_SHORT, NO_ARC};
use crate::{places, refusals};

// More than the longest list has: 1024 lines of 14 bytes.
pub const TEXT_ROOM: usize = 14336;

// The digit of a power of ten, unless it were a needless 0 in front; and the place after it.
fn put_digit(out: &mut [u8], at: usize, value: u32, power: u32) -> usize {
    if value < power && power != 1 {
        return at;
    }
    let digits = value.checked_div(power).unwrap_or(0);
    places::put(out, at, (digits % 10) as u8 + b'0');
    next(at)
}

// A number below ten million, and the place after it.
fn put_numeral(out: &mut [u8], from: usize, value: u32) -> usize {
    let mut at = from;
    for power in [1000000, 100000, 10000, 1000, 100, 10, 1] {
        at = put_digit(out, at, value, power);
    }
    at
}

// A line from a place on, and the place after it.
pub fn put_line(out: &mut [u8], from: usize, tail: u32, head: u32, weight: u32) -> usize {
    let first = put_numeral(out, from, tail);
    places::put(out, first, b' ');
    let second = put_numeral(out, next(first), head);
    places::put(out, second, b' ');
    let end = put_numeral(out, next(second), weight);
    places::put(out, end, b'\n');
    next(end)
}

// "The writer passes over cells that can never be a link".
pub fn can_be_arc(root: u32, tail: u32, head: u32) -> bool {
    tail != head && head != root
}

// "19 for a cell not passed over that is neither a price nor no link": prices end where no link stands.
fn is_right_row(prices: &[u32], n: u32, root: u32, tail: u32) -> bool {
    (0..n).all(|head| {
        !can_be_arc(root, tail, head)
            || places::entry(prices, places::cell(n, tail, head)) <= NO_ARC
    })
}

fn all_right(prices: &[u32], n: u32, root: u32) -> bool {
    (0..n).all(|tail| is_right_row(prices, n, root, tail))
}

// The line of a cell, if it has one.
fn put_cell(out: &mut [u8], at: usize, root: u32, tail: u32, head: u32, weight: u32) -> usize {
    if can_be_arc(root, tail, head) && weight != NO_ARC {
        return put_line(out, at, tail, head, weight);
    }
    at
}

fn put_row(out: &mut [u8], from: usize, prices: &[u32], n: u32, root: u32, tail: u32) -> usize {
    let mut at = from;
    for head in 0..n {
        let weight = places::entry(prices, places::cell(n, tail, head));
        at = put_cell(out, at, root, tail, head, weight);
    }
    at
}

// "The writer puts them by feeder, then fed."
fn put_rows(out: &mut [u8], prices: &[u32], n: u32, root: u32) -> usize {
    let mut at = 0;
    for tail in 0..n {
        at = put_row(out, at, prices, n, root, tail);
    }
    at
}

// The answers that do not depend on the room for the text.
fn check_prices(prices: &[u32], n: u32, root: u32) -> Result<(), u32> {
    refusals::check_count(n, root)?;
    if prices.len() < places::cells(n) {
        return Err(BUFFER_SHORT);
    }
    if !all_right(prices, n, root) {
        return Err(BAD_WEIGHT);
    }
    Ok(())
}

// The length of the text, or the number of the refusal.
pub fn write(prices: &[u32], n: u32, root: u32, out: &mut [u8]) -> Result<usize, u32> {
    check_prices(prices, n, root)?;
    let mut text = [0; TEXT_ROOM];
    let length = put_rows(&mut text, prices, n, root);
    let (Some(to), Some(written)) = (out.get_mut(..length), text.get(..length)) else {
        return Err(BUFFER_SHORT);
    };
    to.copy_from_slice(written);
    Ok(length)
}
