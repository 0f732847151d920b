// What a reading gave, by the product and by the reference; whether two are the same; and readings with one fault
// planted, which that comparison has to report.
use crate::buffers::WORDS;
use crate::{buffers, counts};
use instance::Vertex;
use reference::access;
use reference::tally::Tally;
use reference_prices::{places, read};

// The answer, the faulty line or 0, and the buffer. The product's line is 1 or more where it names one, by its type.
#[derive(Clone, Copy, PartialEq, Eq)]
pub struct Reading {
    pub answer: u32,
    pub line: usize,
    pub words: [u32; WORDS],
}

const OTHER_ANSWER: u32 = 0;

const OTHER_LINE: u32 = 1;

// The first price and the last one changed.
const FIRST: u32 = 2;

const LAST: u32 = 3;

// The word after the prices changed, and the buffer's last.
const AFTER: u32 = 4;

const END: u32 = 5;

// A refusal with the first word changed.
const TOUCHED: u32 = 6;

pub const KINDS: u32 = 7;

pub fn untouched(answer: u32, line: usize) -> Reading {
    Reading {
        answer,
        line,
        words: buffers::words(),
    }
}

// An accepted list, with these words in front.
pub fn accepted(prices: &[u32]) -> Reading {
    let mut words = buffers::words();
    access::put(&mut words, 0, prices);
    Reading {
        answer: 0,
        line: 0,
        words,
    }
}

pub fn by_product(text: &[u8], n: u32, root: u32, room: usize) -> Reading {
    let mut words = buffers::words();
    let r = price_list::read_prices(text, n, Vertex(root), access::front_mut(&mut words, room));
    match r {
        Ok(()) => Reading {
            answer: 0,
            line: 0,
            words: words,
        },
        Err(refused) => Reading {
            answer: u32::from(refused.refusal),
            line: refused.line.unwrap_or(0),
            words: words,
        },
    }
}

pub fn by_reference(text: &[u8], n: u32, root: u32, room: usize) -> Reading {
    let mut words = buffers::words();
    match read::read(text, n, root, access::front_mut(&mut words, room)) {
        Ok(()) => Reading {
            answer: 0,
            line: 0,
            words,
        },
        Err(r) => Reading {
            answer: r.answer,
            line: r.line,
            words,
        },
    }
}

// Whether a reading can have a fault of that kind.
fn applies(g: Reading, kind: u32) -> bool {
    match kind {
        FIRST | LAST | AFTER => g.answer == 0,
        TOUCHED => g.answer != 0,
        _ => true,
    }
}

fn with_fault(g: Reading, n: u32, kind: u32) -> Reading {
    let mut f = g;
    let after = places::cells(n % 64) % WORDS;
    let last = after.wrapping_sub(1) % WORDS;
    match kind {
        OTHER_ANSWER => f.answer = g.answer.wrapping_add(1),
        OTHER_LINE => f.line = places::next(g.line),
        LAST => f.words[last] ^= 1,
        AFTER => f.words[after] ^= 1048576,
        END => f.words[WORDS - 1] ^= 1,
        _ => f.words[0] ^= 524288,
    }
    f
}

// A reading held to what it should be, and then with each kind of fault.
pub fn tried(tally: Tally, which: u32, g: Reading, expected: Reading, n: u32) -> Tally {
    tally.checked(which, g == expected).with_faults(
        counts::PLANTED_READ,
        KINDS,
        |kind| applies(g, kind),
        |kind| with_fault(g, n, kind) == expected,
    )
}

// A text read by the product, as the reference reads it.
pub fn compared(tally: Tally, text: &[u8], n: u32, root: u32, room: usize) -> Tally {
    let expected = by_reference(text, n, root, room);
    let g = by_product(text, n, root, room);
    tried(tally, counts::of_reading(expected.answer), g, expected, n)
}
