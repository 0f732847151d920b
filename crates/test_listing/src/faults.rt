// Listings held to what they should be, result and buffer; and with one fault planted, which that has to report. The
// kinds of a fault are numbers, no enum: they are gone through and counted in their order.
use crate::given::{Given, Listed, ROOM};
use reference::access;
use reference::tally::Tally;
use reference::walk::Ended;

// What is counted beside the faults that are found.
pub const SHEETS: u32 = 3;

pub const DOCUMENTS: u32 = 4;

pub const CHOICES: u32 = 5;

// A count for each way that a walk ends, and for each refusal.
pub const ENDS: u32 = 6;

pub const DAMAGED: u32 = 9;

pub const BAD_LIMIT: u32 = 10;

// Walks that made as many tries as there may be.
pub const LONGEST: u32 = 11;

// A count for each kind of fault.
const PLANTED: u32 = 12;

// The first tree given twice; the first one left out; the first two swapped; the last byte of the last one changed.
const TOO_MANY: u32 = 0;

const MISSING: u32 = 1;

const SWAPPED: u32 = 2;

const OTHER_FEEDER: u32 = 3;

const MORE_TRIES: u32 = 4;

const FEWER_TRIES: u32 = 5;

const OTHER_END: u32 = 6;

// The first byte after the trees changed, and the buffer's last.
const AFTER: u32 = 7;

const LAST: u32 = 8;

// A refusal with the first byte changed; another answer.
const TOUCHED: u32 = 9;

const OTHER_ANSWER: u32 = 10;

const KINDS: u32 = 11;

// What a listing is counted by: how the walk ended, or a refusal.
pub fn count_of(listed: Result<Listed, u32>) -> u32 {
    match listed {
        Ok(l) => match l.ended {
            Some(Ended::AtLimit) => ENDS + 1,
            Some(Ended::NoRoom) => ENDS + 2,
            _ => ENDS,
        },
        Err(_) => BAD_LIMIT,
    }
}

// Whether a listing can have a fault of that kind.
fn applies(g: Given, kind: u32) -> bool {
    match (g.listed, kind) {
        (Err(_), _) => TOUCHED <= kind,
        (Ok(l), MISSING | OTHER_FEEDER) => 0 < l.trees,
        (Ok(l), SWAPPED) => 1 < l.trees,
        (Ok(_), _) => kind != TOUCHED,
    }
}

// The buffer with the first tree given twice, left out, or after the second one. Trees have at most 32 bytes.
fn moved(bytes: [u8; ROOM], n: u32, kind: u32) -> [u8; ROOM] {
    let mut b = bytes;
    let size = n as usize % 64;
    let first = &bytes[..size];
    let rest = &bytes[size..];
    match kind {
        TOO_MANY => access::put(&mut b, size, &bytes),
        MISSING => access::put(&mut b, 0, rest),
        SWAPPED => {
            access::put(&mut b, 0, access::front(rest, size));
            access::put(&mut b, size, first);
        }
        _ => {}
    }
    b
}

fn other_end(ended: Option<Ended>) -> Option<Ended> {
    match ended {
        Some(Ended::Complete) => Some(Ended::AtLimit),
        Some(Ended::AtLimit) => Some(Ended::NoRoom),
        _ => Some(Ended::Complete),
    }
}

// The numbers of a walk with one of them changed, or a refusal in their place.
fn with_other_number(listed: Listed, kind: u32) -> Result<Listed, u32> {
    let mut l = listed;
    match kind {
        TOO_MANY => l.trees = l.trees.wrapping_add(1),
        MISSING => l.trees = l.trees.wrapping_sub(1),
        MORE_TRIES => l.tries = l.tries.wrapping_add(1),
        FEWER_TRIES => l.tries = l.tries.wrapping_sub(1),
        OTHER_END => l.ended = other_end(l.ended),
        OTHER_ANSWER => return Err(1),
        _ => {}
    }
    Ok(l)
}

// The buffer with a byte changed: the last of the trees, the first after them, or its own last.
fn with_other_byte(bytes: [u8; ROOM], length: u32, kind: u32) -> [u8; ROOM] {
    let mut b = bytes;
    let after = length as usize % ROOM;
    match kind {
        OTHER_FEEDER => b[length.wrapping_sub(1) as usize % ROOM] ^= 1,
        AFTER => b[after] ^= 255,
        LAST => b[ROOM - 1] ^= 1,
        TOUCHED => b[0] ^= 128,
        _ => {}
    }
    b
}

fn with_fault(g: Given, n: u32, kind: u32) -> Given {
    match g.listed {
        Ok(l) => Given {
            listed: with_other_number(l, kind),
            bytes: with_other_byte(moved(g.bytes, n, kind), l.trees.wrapping_mul(n), kind),
        },
        Err(answer) => Given {
            listed: Err(answer.wrapping_add(u32::from(kind == OTHER_ANSWER))),
            bytes: with_other_byte(g.bytes, 0, kind),
        },
    }
}

// A listing held to what it should be, and then with each kind of fault.
pub fn tried(tally: Tally, which: u32, g: Given, expected: Given, n: u32) -> Tally {
    tally.checked(which, g == expected).with_faults(
        PLANTED,
        KINDS,
        |kind| applies(g, kind),
        |kind| with_fault(g, n, kind) == expected,
    )
}
