// Random and damaged cards of all lengths against the reference's reading: every refusal from 1 to 8 but 6, which is
// retired, and cards that open, written back. They are plain cards; where a change makes a history card of one
// (02, A8), it is read as that.
use harness::calls::Opened;
use harness::{calls, histories, session};
use reference::card::{CARD_ROOM, Card};
use reference::history_card::Reading;
use reference::problem::MAX_VERTICES;
use reference::random::Random;
use reference::tally::Tally;
use reference::{access, card, history_card, sample};

// What the program counts beside the faults: each answer has a count.
const CARDS: u32 = 3;

const ANSWERS: u32 = 4;

fn reading_of(c: Card) -> Result<Reading, u32> {
    history_card::open(c.as_slice())
}

// Whether a card that opened gives the board that it says, and the same bytes again when written.
fn opened_right(o: Opened, r: Reading, c: Card) -> bool {
    let b = o.board;
    histories::is_board(b, r.problem, r.history) && session::is_written(calls::write(b), c)
}

// Whether the answer is the reference's, with the right board, or with none: one that every call refuses.
fn is_right(o: Opened, due: Result<Reading, u32>, c: Card) -> bool {
    match due {
        Ok(r) => o.answer == 0 && opened_right(o, r, c),
        Err(answer) => o.answer == answer && calls::look(o.board).kind == calls::REFUSED,
    }
}

fn tried(tally: Tally, c: Card) -> Tally {
    let o = calls::open(c);
    let t = tally.checked(CARDS, is_right(o, reading_of(c), c));
    t.with(ANSWERS.wrapping_add(o.answer), 1)
}

// The card with one bit of its first bits changed.
fn with_bit_changed(c: Card, k: u32) -> Card {
    let mut d = c;
    let at = (k / 8 % CARD_ROOM as u32) as usize;
    d.bytes[at] ^= 128u8 >> (k % 8);
    d
}

fn with_length(c: Card, length: u32) -> Card {
    let mut d = c;
    d.length = length;
    d
}

// A lawful card, and its board held to the card with one bit changed, which has to be reported; where that card is
// refused, the card that is written of the board is held to it.
fn tried_lawful(tally: Tally, c: Card, k: u32) -> Tally {
    let o = calls::open(c);
    let d = with_bit_changed(c, k);
    let seems_right = match reading_of(d) {
        Ok(r) => opened_right(o, r, d),
        Err(_) => session::is_written(calls::write(o.board), d),
    };
    tried(tally.planted(!seems_right), c)
}

// A lawful card with one bit changed, with two, with one of the first 36 and with one of the last 8.
fn tried_bits(tally: Tally, c: Card, bits: u32, g: Random) -> Tally {
    let h = g.next();
    let last = bits.wrapping_sub(h.next().below(8).wrapping_add(1));
    let d = with_bit_changed(c, g.below(bits));
    let t = tried(tally, d);
    let u = tried(t, with_bit_changed(d, h.below(bits)));
    let v = tried(u, with_bit_changed(c, h.below(36)));
    tried(v, with_bit_changed(c, last))
}

// A lawful card, the same with bits changed, too long and too short.
fn tried_damaged(tally: Tally, c: Card, g: Random) -> Tally {
    let bits = c.length.wrapping_mul(8);
    let t = tried_lawful(tally, c, g.below(bits));
    let u = tried_bits(t, c, bits, g);
    let v = tried(u, with_length(c, c.length.wrapping_add(1)));
    tried(v, with_length(c, c.length.wrapping_sub(1)))
}

// Cards of every number of vertices, damaged in turn.
fn run_damaged(count: u32) -> Tally {
    (0..count).fold(Tally::zero(), |t, k| {
        let g = Random::seeded(k);
        let c = card::build(sample::any_instance(g, k % MAX_VERTICES + 1));
        tried_damaged(t, c, g.next().next())
    })
}

// Random bytes all through.
fn noise(seed: Random, length: u32) -> Card {
    let mut c = Card {
        bytes: [0; CARD_ROOM],
        length,
    };
    let mut g = seed;
    for place in &mut c.bytes {
        *place = access::narrow(g.below(256));
        g = g.next();
    }
    c
}

// A length that no plain card has which opens.
const NOISE: u32 = 2700;

// Noise of every length below that.
fn run_noise(tally: Tally) -> Tally {
    (0..NOISE).fold(
        tally,
        |t, length| tried(t, noise(Random::seeded(length), length)),
    )
}

pub fn all() {
    run_noise(run_damaged(3200)).report(
        b"cards\nanswer 0:\nanswer 1:\nanswer 2:\nanswer 3:\nanswer 4:\nanswer 5:\nanswer 6:\nanswer 7:\nanswer 8:\n",
    );
}
