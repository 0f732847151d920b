// Runs of digits, from one place of a text to another, of any length.
use crate::places::entry;

fn all_digits(text: &[u8], from: usize, to: usize) -> bool {
    (from..to).all(|at| entry(text, at).is_ascii_digit())
}

// "decimal with no needless leading zero": a 0 in front is needed where it is the only digit.
pub fn is_numeral(text: &[u8], from: usize, to: usize) -> bool {
    from < to && (entry(text, from) != b'0' || to - from == 1) && all_digits(text, from, to)
}

// Whether a numeral is above another: it has more digits, or as many and a greater one where they first differ.
pub fn is_above(text: &[u8], from: usize, to: usize, limit: &[u8]) -> bool {
    let count = to.wrapping_sub(from);
    if count != limit.len() {
        return limit.len() < count;
    }
    text.get(from..to).is_some_and(|numeral| limit < numeral)
}

// Whether a numeral is that of a vertex, which has one digit or two.
fn is_vertex(text: &[u8], from: usize, to: usize, v: u32) -> bool {
    let ones = (v % 10) as u8 + b'0';
    let tens = (v / 10 % 10) as u8 + b'0';
    let count = to.wrapping_sub(from);
    if v < 10 {
        return count == 1 && entry(text, from) == ones;
    }
    count == 2 && entry(text, from) == tens && entry(text, from.wrapping_add(1)) == ones
}

// The vertex that a numeral names, found by trying them all.
pub fn vertex(text: &[u8], from: usize, to: usize, n: u32) -> Option<u32> {
    (0..n).find(|&v| is_vertex(text, from, to, v))
}

// What a numeral says that is a price, so that nothing wraps.
pub fn value(text: &[u8], from: usize, to: usize) -> u32 {
    let mut sum: u32 = 0;
    for at in from..to {
        let digit = entry(text, at).wrapping_sub(b'0');
        sum = sum.wrapping_mul(10).wrapping_add(u32::from(digit));
    }
    sum
}
