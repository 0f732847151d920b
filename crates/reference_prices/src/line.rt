// A line of a list: "A line is feeder, space, fed, space, pence, line feed; decimal with no needless leading zero."
use crate::places::{entry, next};
use crate::refusals::{BAD_SHAPE, BAD_WEIGHT, NAMED_BEFORE, NO_ARC_THERE, NO_VERTEX};
use crate::{numerals, places};

// Where a line begins, where its first two spaces stand and where its line feed does. What it lacks of them stands at
// its end, which is that of the text if it has no line feed.
#[derive(Clone, Copy)]
pub struct Line {
    pub from: usize,
    pub first: usize,
    pub second: usize,
    pub end: usize,
}

pub fn split(text: &[u8], from: usize) -> Line {
    let end = places::find(text, from, text.len(), b'\n');
    let first = places::find(text, from, end, b' ');
    let second = places::find(text, next(first), end, b' ');
    Line {
        from,
        first,
        second,
        end,
    }
}

pub fn tail(text: &[u8], line: Line, n: u32) -> Option<u32> {
    numerals::vertex(text, line.from, line.first, n)
}

pub fn head(text: &[u8], line: Line, n: u32) -> Option<u32> {
    numerals::vertex(text, next(line.first), line.second, n)
}

pub fn weight(text: &[u8], line: Line) -> u32 {
    numerals::value(text, next(line.second), line.end)
}

// A third space would be in the last number. "Lines may come in any order", and each has its line feed, the last too.
fn has_shape(text: &[u8], line: Line) -> bool {
    line.end != text.len()
        && numerals::is_numeral(text, line.from, line.first)
        && numerals::is_numeral(text, next(line.first), line.second)
        && numerals::is_numeral(text, next(line.second), line.end)
}

fn begins_line(text: &[u8], at: usize) -> bool {
    at == 0 || entry(text, at.wrapping_sub(1)) == b'\n'
}

// Whether an earlier line begins with the same two numbers: each has one way to be written, so the bytes up to the
// second space tell.
fn is_named_before(text: &[u8], line: Line) -> bool {
    let count = next(line.second).wrapping_sub(line.from);
    (0..line.from).any(|at| begins_line(text, at) && places::is_same(text, at, line.from, count))
}

// Whether a line whose earlier ones are right is so too; or the number of what is wrong with it, "in this order within
// it".
pub fn check(text: &[u8], line: Line, n: u32, root: u32) -> Result<(), u32> {
    if !has_shape(text, line) {
        return Err(BAD_SHAPE);
    }
    let t = tail(text, line, n).ok_or(NO_VERTEX)?;
    let h = head(text, line, n).ok_or(NO_VERTEX)?;
    if t == h || h == root {
        return Err(NO_ARC_THERE);
    }
    // "Prices go up to 1,048,574 pence" (A9).
    if numerals::is_above(text, next(line.second), line.end, b"1048574") {
        return Err(BAD_WEIGHT);
    }
    if is_named_before(text, line) {
        return Err(NAMED_BEFORE);
    }
    Ok(())
}
