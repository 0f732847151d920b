// Random calls: every count, any feeder, lists with few prices or many and with numbers that are none, of which as much
// is handed over as is needed, or more, or one place too few.
use crate::calls::{Call, ROOM};
use crate::{calls, faults};
use reference::random::Random;
use reference::tally::Tally;
use reference_rows::NO_LINK;

// What stands in a place: mostly no link, a price of its own, and one in 64 a number that is none. Many: half prices.
fn drawn(g: Random, own: u32, is_many: bool) -> u32 {
    let pick = g.below(64);
    let prices = if is_many { 32 } else { 2 };
    if pick == 63 {
        return (NO_LINK + 1).wrapping_add(g.next().below(4293918720));
    }
    if pick < prices {
        return own;
    }
    NO_LINK
}

// The prices of the school are below 2,000, and the shipped ones are not.
fn filled(c: Call, seed: u32) -> Call {
    let mut d = c;
    let mut g = Random::seeded(seed);
    for k in 0..ROOM {
        d.school[k] = drawn(g, k as u32, seed % 4 == 0);
        g = g.next().next();
        d.shipped[k] = drawn(g, 2000 + k as u32, seed % 3 == 0);
        g = g.next().next();
    }
    d
}

// One call in eight has one thing wrong: the count, the feeder, or the length of a list.
fn damaged(c: Call, g: Random) -> Call {
    let mut d = c;
    let counts = [0, 33, 64, 4294967295];
    let way = g.below(32);
    let short = c.n.wrapping_mul(c.n).wrapping_sub(1);
    match way {
        0 => d.n = counts[(c.tail % 4) as usize],
        1 => d.tail = c.n.wrapping_add(c.tail % 2),
        2 => d.school_length = short,
        3 => d.shipped_length = short,
        4..=17 => d.school_length = short.wrapping_add(1),
        _ => d.shipped_length = short.wrapping_add(1),
    }
    d
}

pub fn call(seed: u32) -> Call {
    let n = seed % 32 + 1;
    let g = Random::seeded(seed.wrapping_add(1000000));
    let c = filled(calls::plain(n, g.below(n)), seed);
    damaged(c, g.next())
}

// Counted by the answer, and a row by the list that it stands in.
pub fn all(tally: Tally, count: u32) -> Tally {
    let mut t = tally;
    for seed in 0..count {
        let c = call(seed);
        let which = match calls::by_reference(c) {
            Ok(u) if u.is_school => 4,
            Ok(_) => 5,
            Err(9) => 6,
            Err(14) => 7,
            Err(29) => 8,
            Err(_) => 9,
        };
        t = faults::tried(t, which, c);
    }
    t
}
