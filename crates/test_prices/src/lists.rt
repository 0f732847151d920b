// Random lists: as they are made, and with one thing or two changed.
use crate::buffers::WORDS;
use crate::making::Text;
use crate::readings::Reading;
use crate::{counts, damage, making, readings};
use reference::access;
use reference::random::Random;
use reference::tally::Tally;
use reference_prices::places;

// The words that the prices need, one more, all, or one less.
fn nth_room(k: u32, n: u32) -> usize {
    let cells = places::cells(n);
    match k {
        0 => cells,
        1 => places::next(cells),
        2 => WORDS,
        _ => cells.wrapping_sub(1),
    }
}

// A text read as the reference reads it: in every room, with one vertex more, one less, and another root.
fn tried_text(tally: Tally, text: &[u8], n: u32, root: u32, g: Random) -> Tally {
    let kind = g.below(8);
    let room = nth_room(g.next().below(4), n);
    match kind {
        0 => readings::compared(tally, text, n, root, room),
        1 => readings::compared(tally, text, n.wrapping_add(1), root, WORDS),
        2 => readings::compared(tally, text, n.wrapping_sub(1), root, WORDS),
        3 => readings::compared(tally, text, n, g.below(n.wrapping_add(1)), WORDS),
        _ => readings::compared(tally, text, n, root, WORDS),
    }
}

// Damage of a kind; in the second half of the ways, then any other.
fn nth_damage(text: Text, g: Random, n: u32, way: u32) -> Text {
    let d = damage::damaged(text, g, n, way % damage::KINDS);
    if way < damage::KINDS {
        return d;
    }
    let h = g.next().next().next();
    damage::damaged(d, h, n, h.below(damage::KINDS))
}

fn tried_damage(tally: Tally, text: Text, n: u32, root: u32, g: Random, way: u32) -> Tally {
    let d = nth_damage(text, g, n, way);
    let t = tally.with(counts::DAMAGED, 1);
    let h = g.next().next();
    tried_text(t, d.as_slice(), n, root, h)
}

fn tried_damages(tally: Tally, text: Text, n: u32, root: u32, seed: Random) -> Tally {
    let mut t = tally;
    let mut g = seed;
    for way in 0..damage::WAYS {
        g = g.next();
        t = tried_damage(t, text, n, root, g, way);
    }
    t
}

// A list as the prices say that it was made of, by the product and by the reference.
fn tried_made(
    tally: Tally,
    text: &[u8],
    n: u32,
    root: u32,
    words: [u32; WORDS],
    room: usize,
) -> Tally {
    let expected = Reading {
        answer: 0,
        line: 0,
        words,
    };
    let g = readings::by_product(text, n, root, room);
    let t = readings::tried(tally, counts::MADE, g, expected, n);
    let r = readings::by_reference(text, n, root, room);
    readings::tried(t, counts::MADE, r, expected, n)
}

// A list in written order or in any other.
pub fn tried_list(tally: Tally, k: u32, n: u32) -> Tally {
    let g = Random::seeded(k);
    let root = g.below(n);
    let h = g.next().next();
    let prices = making::some_prices(h, n, root);
    let order = if k % 4 == 0 {
        making::in_order()
    } else {
        making::shuffled(h, n)
    };
    let text = making::list(prices, n, root, order);
    let words = making::words_read(prices, n, root);
    let bytes = text.as_slice();
    let t = tried_made(tally, bytes, n, root, words, nth_room(k % 3, n));
    let t = tried_text(t, bytes, n, root, h.next());
    tried_damages(t, text, n, root, h)
}

// Lists of 1 to 8 vertices.
pub fn small(tally: Tally, count: u32) -> Tally {
    (0..count).fold(tally, |t, k| tried_list(t, k, k % 8 + 1))
}

// Lists of 32 vertices.
pub fn large(tally: Tally, count: u32) -> Tally {
    (0..count).fold(tally, |t, k| tried_list(t, k, 32))
}
