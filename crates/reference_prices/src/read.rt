// A whole list read: all lines are judged first, and then put, so that "a refused list leaves the buffer untouched".
use crate::places::next;
use crate::refusals::{BUFFER_SHORT, NO_ARC};
use crate::{line, places, refusals};

// The number of a refusal; of a faulty line also which it is, from 1, and otherwise 0.
#[derive(Clone, Copy, PartialEq, Eq)]
pub struct Refused {
    pub answer: u32,
    pub line: usize,
}

fn without_line(checked: Result<(), u32>) -> Result<(), Refused> {
    checked.map_err(|answer| Refused { answer, line: 0 })
}

// "then by the first faulty line". A text has at most as many lines as bytes.
fn check_lines(text: &[u8], n: u32, root: u32) -> Result<(), Refused> {
    let mut from = 0;
    for before in 0..text.len() {
        if text.len() <= from {
            return Ok(());
        }
        let l = line::split(text, from);
        line::check(text, l, n, root).map_err(|answer| Refused {
            answer,
            line: next(before),
        })?;
        from = next(l.end);
    }
    Ok(())
}

// Puts the line at a place, if there is one, and gives the place after it.
fn put_line(text: &[u8], from: usize, n: u32, prices: &mut [u32]) -> usize {
    if text.len() <= from {
        return from;
    }
    let l = line::split(text, from);
    if let (Some(tail), Some(head)) = (line::tail(text, l, n), line::head(text, l, n)) {
        places::put(prices, places::cell(n, tail, head), line::weight(text, l));
    }
    next(l.end)
}

fn put_lines(text: &[u8], n: u32, prices: &mut [u32]) {
    let mut from = 0;
    for before in 0..text.len() {
        from = put_line(text, from, n, prices);
    }
}

pub fn read(text: &[u8], n: u32, root: u32, prices: &mut [u32]) -> Result<(), Refused> {
    without_line(refusals::check_count(n, root))?;
    let Some(cells) = prices.get_mut(..places::cells(n)) else {
        return without_line(Err(BUFFER_SHORT));
    };
    check_lines(text, n, root)?;
    // "with no link in all other cells"
    cells.fill(NO_ARC);
    put_lines(text, n, cells);
    Ok(())
}
