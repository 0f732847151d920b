// What a writing gave, by the product and by the reference; whether two are the same; and writings with one fault
// planted, which that comparison has to report.
use crate::buffers::BYTES;
use crate::{buffers, counts};
use instance::Vertex;
use reference::access;
use reference::refusals::number_of;
use reference::tally::Tally;
use reference_prices::{places, write};

// The answer, the length of the text or 0, and the buffer: all the numbers that the product gives, so that a length
// beside a refusal is seen too.
#[derive(Clone, Copy, PartialEq, Eq)]
pub struct Writing {
    pub answer: u32,
    pub length: usize,
    pub bytes: [u8; BYTES],
}

const OTHER_ANSWER: u32 = 0;

const OTHER_LENGTH: u32 = 1;

// The first byte of the text and the last one changed.
const FIRST: u32 = 2;

const LAST: u32 = 3;

// The byte after the text changed, which with a refusal is the buffer's first; and the buffer's last.
const AFTER: u32 = 4;

const END: u32 = 5;

const KINDS: u32 = 6;

pub fn untouched(answer: u32) -> Writing {
    Writing {
        answer,
        length: 0,
        bytes: buffers::bytes(),
    }
}

// An accepted writing, with this text in front.
pub fn accepted(text: &[u8]) -> Writing {
    let mut bytes = buffers::bytes();
    access::put(&mut bytes, 0, text);
    Writing {
        answer: 0,
        length: text.len(),
        bytes,
    }
}

pub fn by_product(prices: &[u32], n: u32, root: u32, room: usize) -> Writing {
    let mut bytes = buffers::bytes();
    let w = price_list::write_prices(prices, n, Vertex(root), access::front_mut(&mut bytes, room));
    match w {
        Ok(length) => Writing {
            answer: 0,
            length: length,
            bytes: bytes,
        },
        Err(refusal) => Writing {
            answer: u32::from(refusal),
            length: 0,
            bytes: bytes,
        },
    }
}

pub fn by_reference(prices: &[u32], n: u32, root: u32, room: usize) -> Writing {
    let mut bytes = buffers::bytes();
    let w = write::write(prices, n, root, access::front_mut(&mut bytes, room));
    Writing {
        answer: number_of(w),
        length: w.unwrap_or(0),
        bytes,
    }
}

// Whether a writing can have a fault of that kind.
fn applies(g: Writing, kind: u32) -> bool {
    match kind {
        FIRST | LAST => g.length != 0,
        _ => true,
    }
}

fn with_fault(g: Writing, kind: u32) -> Writing {
    let mut f = g;
    let after = g.length % BYTES;
    let last = g.length.wrapping_sub(1) % BYTES;
    match kind {
        OTHER_ANSWER => f.answer = g.answer.wrapping_add(1),
        OTHER_LENGTH => f.length = places::next(g.length),
        FIRST => f.bytes[0] ^= 1,
        LAST => f.bytes[last] ^= 1,
        AFTER => f.bytes[after] ^= 128,
        _ => f.bytes[BYTES - 1] ^= 1,
    }
    f
}

// A writing held to what it should be, and then with each kind of fault.
pub fn tried(tally: Tally, which: u32, g: Writing, expected: Writing) -> Tally {
    tally.checked(which, g == expected).with_faults(
        counts::PLANTED_WRITTEN,
        KINDS,
        |kind| applies(g, kind),
        |kind| with_fault(g, kind) == expected,
    )
}

// Prices written by the product, as the reference writes them.
pub fn compared(tally: Tally, prices: &[u32], n: u32, root: u32, room: usize) -> Tally {
    let expected = by_reference(prices, n, root, room);
    let g = by_product(prices, n, root, room);
    tried(tally, counts::of_writing(expected.answer), g, expected)
}
