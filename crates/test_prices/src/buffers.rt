// The buffers that are lent: longer than any call needs, lent whole or in part, and filled with values that differ from
// place to place and that no list has.
use reference::access;
use reference_prices::{numerals, places};

pub const WORDS: usize = 1100;

pub const BYTES: usize = 14400;

pub fn words() -> [u32; WORDS] {
    let mut w = [0; WORDS];
    for (place, value) in w.iter_mut().zip(2863311530u32..) {
        *place = value;
    }
    w
}

pub fn bytes() -> [u8; BYTES] {
    let mut b = [0; BYTES];
    for (place, k) in b.iter_mut().zip(0usize..) {
        *place = (k % 128) as u8 + 128;
    }
    b
}

// What stands from a place on, and between two places.
pub fn back(s: &[u8], from: usize) -> &[u8] {
    s.get(from..).unwrap_or_default()
}

pub fn part(s: &[u8], from: usize, to: usize) -> &[u8] {
    back(access::front(s, to), from)
}

// Where the k-th part begins, from 0, of a slice whose parts have a mark between them; its length where there are
// fewer.
fn nth_begin(s: &[u8], k: u32, mark: u8) -> usize {
    let mut before: u32 = 0;
    for (&x, at) in s.iter().zip(0usize..) {
        if before == k {
            return at;
        }
        if x == mark {
            before = before.wrapping_add(1);
        }
    }
    s.len()
}

pub fn nth(s: &[u8], k: u32, mark: u8) -> &[u8] {
    let from = nth_begin(s, k, mark);
    part(s, from, places::find(s, from, s.len(), mark))
}

// The k-th number of a row, which has spaces between them.
pub fn number(row: &[u8], k: u32) -> u32 {
    let digits = nth(row, k, b' ');
    numerals::value(digits, 0, digits.len())
}

// Each part of a slice in turn that has a semicolon behind it, with what the ones before it came to.
pub fn fold_parts<S: Copy, F: Fn(S, &[u8]) -> S>(s: &[u8], start: S, after: F) -> S
    requires { F.IsAlwaysCallable after }
{
    let mut state = start;
    let mut from = 0;
    for (&x, at) in s.iter().zip(0usize..) {
        if x == b';' {
            state = after(state, part(s, from, at));
            from = places::next(at);
        }
    }
    state
}
