// Random prices written, into room of every kind of length; and the round trips.
use crate::buffers::{BYTES, WORDS};
use crate::readings::Reading;
use crate::{counts, making, readings, writings};
use reference::access;
use reference::random::Random;
use reference::tally::Tally;
use reference_prices::places;
use reference_prices::refusals::NO_ARC;

// "neither a price nor no link": the least such number, the greatest, and any other.
fn some_bad_word(g: Random) -> u32 {
    let kind = g.below(3);
    match kind {
        0 => NO_ARC + 1,
        1 => 4294967295,
        _ => g.next().below(4000000000).wrapping_add(NO_ARC + 1),
    }
}

// One cell out of range, which is passed over where no link can be.
fn with_bad_word(prices: [u32; WORDS], g: Random, n: u32) -> [u32; WORDS] {
    let mut w = prices;
    let at = g.below((n % 64).wrapping_mul(n % 64)) as usize;
    places::put(&mut w, at, some_bad_word(g.next()));
    w
}

// No room, a byte less than the text needs, just that, a byte more, and all.
fn nth_room(k: u32, length: usize) -> usize {
    match k {
        0 => 0,
        1 => length.wrapping_sub(1),
        2 => length,
        3 => places::next(length),
        _ => BYTES,
    }
}

// Every room, as the reference has it.
fn tried_rooms(tally: Tally, words: &[u32], n: u32, root: u32) -> Tally {
    let full = writings::by_reference(words, n, root, BYTES);
    (0u32..5).fold(
        tally,
        |t, k| writings::compared(t, words, n, root, nth_room(k, full.length)),
    )
}

// Every fourth time with a bad cell.
fn nth_prices(k: u32, g: Random, n: u32, root: u32) -> [u32; WORDS] {
    let prices = making::some_prices(g, n, root);
    if k % 4 == 3 {
        return with_bad_word(prices, g.next(), n);
    }
    prices
}

// Too few words, a bad root and a bad count, each with what would be refused after it; and one vertex more.
fn tried_refusals(tally: Tally, prices: &[u32], n: u32, root: u32) -> Tally {
    let few = access::front(prices, places::cells(n).wrapping_sub(1));
    let t = writings::compared(tally, few, n, root, 0);
    let t = writings::compared(t, few, n, root.wrapping_add(n), BYTES);
    let t = writings::compared(t, few, n.wrapping_add(32), root, BYTES);
    writings::compared(t, prices, n.wrapping_add(1), root, BYTES)
}

fn tried_prices(tally: Tally, k: u32, n: u32) -> Tally {
    let g = Random::seeded(k);
    let root = g.below(n);
    let prices = nth_prices(k, g.next(), n, root);
    let all = access::front(&prices, WORDS);
    let words = if k % 2 == 0 { WORDS } else { places::cells(n) };
    let t = tried_rooms(tally, access::front(all, words), n, root);
    tried_refusals(t, all, n, root)
}

// "A list written and read again yields the same prices where a link can be".
fn written_read(tally: Tally, prices: [u32; WORDS], n: u32, root: u32) -> Tally {
    let w = writings::by_product(&prices, n, root, BYTES);
    let text = access::front(&w.bytes, w.length);
    let expected = Reading {
        answer: w.answer,
        line: 0,
        words: making::words_read(prices, n, root),
    };
    let g = readings::by_product(text, n, root, WORDS);
    readings::tried(tally, counts::WRITTEN_READ, g, expected, n)
}

// "a list in written order is reproduced byte for byte".
fn read_written(tally: Tally, prices: [u32; WORDS], n: u32, root: u32) -> Tally {
    let list = making::list(prices, n, root, making::in_order());
    let text = list.as_slice();
    let r = readings::by_product(text, n, root, WORDS);
    let g = writings::by_product(&r.words, n, root, list.length);
    writings::tried(tally, counts::READ_WRITTEN, g, writings::accepted(text))
}

fn tried_trips(tally: Tally, k: u32, n: u32) -> Tally {
    let g = Random::seeded(k.wrapping_add(1000000));
    let root = g.below(n);
    let prices = making::some_prices(g.next(), n, root);
    let t = written_read(tally, prices, n, root);
    read_written(t, prices, n, root)
}

// Prices of 1 to 8 vertices.
pub fn small(tally: Tally, count: u32) -> Tally {
    let mut t = tally;
    for k in 0..count {
        t = tried_prices(t, k, k / 4 % 8 + 1);
        t = tried_trips(t, k, k % 8 + 1);
    }
    t
}

// Prices of 32 vertices.
pub fn large(tally: Tally, count: u32) -> Tally {
    let mut t = tally;
    for k in 0..count {
        t = tried_prices(t, k, 32);
        t = tried_trips(t, k, 32);
    }
    t
}
