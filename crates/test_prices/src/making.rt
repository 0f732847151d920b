// Random prices, and the lists of them: in written order and in any other.
use crate::buffers;
use crate::buffers::WORDS;
use reference::access;
use reference::random::Random;
use reference_prices::refusals::NO_ARC;
use reference_prices::{places, write};

// More than the longest list, with what damage adds to it.
pub const ROOM: usize = 16384;

pub const CELLS: usize = 1024;

#[derive(Clone, Copy)]
pub struct Text {
    pub bytes: [u8; ROOM],
    pub length: usize,
}

impl Text {
    pub fn as_slice(&self) -> &[u8] {
        access::front(&self.bytes, self.length)
    }
}

// Prices of every number of digits, the least and the greatest among them.
fn some_weight(g: Random) -> u32 {
    let h = g.next();
    let kind = g.below(9);
    match kind {
        0 => 0,
        1 => NO_ARC - 1,
        2 => h.below(10),
        3 => h.below(12),
        4 => h.below(102),
        5 => h.below(1002),
        6 => h.below(100002),
        _ => h.below(NO_ARC),
    }
}

// The tail and the head of a cell.
pub fn tail_of(n: u32, cell: usize) -> u32 {
    let k = (cell % WORDS) as u32;
    k.checked_div(n).unwrap_or(0)
}

pub fn head_of(n: u32, cell: usize) -> u32 {
    let k = (cell % WORDS) as u32;
    k.checked_rem(n).unwrap_or(0)
}

// Whether a cell is one of the prices and can be a link.
pub fn is_arc(n: u32, root: u32, cell: usize) -> bool {
    tail_of(n, cell) < n && write::can_be_arc(root, tail_of(n, cell), head_of(n, cell))
}

// What stands in a cell: as often no link as there are of eight, or else a price; anything where no link can be.
fn some_word(g: Random, n: u32, root: u32, cell: usize, none: u32) -> u32 {
    if !is_arc(n, root, cell) {
        return g.word();
    }
    if g.below(8) < none {
        return NO_ARC;
    }
    some_weight(g.next())
}

pub fn some_prices(seed: Random, n: u32, root: u32) -> [u32; WORDS] {
    let mut w = [0; WORDS];
    let mut g = seed;
    let none = seed.below(9);
    for (word, cell) in w.iter_mut().zip(0usize..) {
        g = g.next().next().next();
        *word = some_word(g, n, root, cell, none);
    }
    w
}

// What a buffer holds when these prices have been read into it.
fn word_read(n: u32, root: u32, cell: usize, price: u32, before: u32) -> u32 {
    if is_arc(n, root, cell) {
        return price;
    }
    if tail_of(n, cell) < n {
        return NO_ARC;
    }
    before
}

pub fn words_read(prices: [u32; WORDS], n: u32, root: u32) -> [u32; WORDS] {
    let mut w = buffers::words();
    for (word, cell) in w.iter_mut().zip(0usize..) {
        *word = word_read(n, root, cell, places::entry(&prices, cell), *word);
    }
    w
}

// The cells in order.
pub fn in_order() -> [u32; CELLS] {
    let mut order = [0; CELLS];
    for (place, k) in order.iter_mut().zip(0u32..) {
        *place = k;
    }
    order
}

fn shuffle(out: &mut [u32], seed: Random, count: u32) {
    let mut g = seed;
    for k in 0..count {
        g = g.next();
        let a = k as usize;
        let b = g.below(count) as usize;
        if a < out.len() && b < out.len() {
            out.swap(a, b);
        }
    }
}

// The cells of n vertices in any order, and then the others.
pub fn shuffled(seed: Random, n: u32) -> [u32; CELLS] {
    let mut order = in_order();
    shuffle(&mut order, seed, (n % 64).wrapping_mul(n % 64));
    order
}

// The line of a cell, if it has one; and the place after it.
fn put_cell(out: &mut [u8], at: usize, n: u32, root: u32, cell: usize, price: u32) -> usize {
    if is_arc(n, root, cell) && price != NO_ARC {
        return write::put_line(out, at, tail_of(n, cell), head_of(n, cell), price);
    }
    at
}

fn put_cells(out: &mut [u8], prices: &[u32], n: u32, root: u32, order: &[u32]) -> usize {
    let mut at = 0;
    for &k in access::front(order, places::cells(n)) {
        let cell = k as usize;
        at = put_cell(out, at, n, root, cell, places::entry(prices, cell));
    }
    at
}

// The list of prices, by cells in that order.
pub fn list(prices: [u32; WORDS], n: u32, root: u32, order: [u32; CELLS]) -> Text {
    let mut bytes = [0; ROOM];
    let length = put_cells(&mut bytes, &prices, n, root, &order);
    Text { bytes, length }
}
