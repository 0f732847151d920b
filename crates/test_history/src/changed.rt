// Cards with bits changed, cut or continued.
use reference::access;
use reference::card::{CARD_ROOM, Card};
use reference::random::Random;

// The card with one bit changed.
pub fn with_bit(c: Card, k: u32) -> Card {
    let mut d = c;
    let at = (k / 8 % CARD_ROOM as u32) as usize;
    d.bytes[at] ^= 128u8 >> (k % 8);
    d
}

// The card cut to a length, or continued to it with zeros.
pub fn with_length(c: Card, length: u32) -> Card {
    let mut d = c;
    d.length = length;
    d
}

// The card with a byte more.
pub fn with_byte(c: Card, x: u8) -> Card {
    let mut d = c;
    let at = (c.length % CARD_ROOM as u32) as usize;
    d.bytes[at] = x;
    d.length = c.length.wrapping_add(1);
    d
}

// The card without its last byte.
pub fn cut(c: Card) -> Card {
    with_length(c, c.length.wrapping_sub(1))
}

// The card with the last bit of its last byte changed: a filling bit where there is one.
pub fn with_last_bit(c: Card) -> Card {
    let bits = c.length.wrapping_mul(8);
    with_bit(c, bits.wrapping_sub(1))
}

// The card with ones in the upper five bits of its budget, which is too high with them: they stand behind 11 bits, and
// on a history card behind six more.
pub fn with_high_budget(c: Card, history: bool) -> Card {
    let mut d = c;
    if history {
        d.bytes[2] |= 124;
    } else {
        d.bytes[1] |= 31;
    }
    d
}

// The card with random bytes from a place on.
pub fn with_noise(c: Card, from: u32, seed: Random) -> Card {
    let mut d = c;
    let mut g = seed;
    for place in d.bytes.iter_mut().skip(from as usize) {
        *place = access::narrow(g.word());
        g = g.next();
    }
    d
}
