// Long texts: 100,000 lines, and numbers of a million digits.
use crate::buffers::WORDS;
use crate::{buffers, cases, making};
use reference::access;
use reference::random::Random;
use reference::tally::Tally;
use reference_prices::places;
use reference_prices::refusals::NO_ARC;

const DIGITS: usize = 1000000;

// Room for such a number, with what stands before and behind it.
const DIGITS_ROOM: usize = 1000032;

const LINE: usize = 6;

const LINES_ROOM: usize = 600000;

// A line of six bytes, again and again, so that one of them begins at a place.
fn repeat(out: &mut [u8], from: usize, line: &[u8]) {
    let shift = LINE - from % LINE;
    for (place, k) in out.iter_mut().zip(shift..) {
        *place = places::entry(line, k % LINE);
    }
}

fn zeros() -> [u8; LINES_ROOM] {
    [0; LINES_ROOM]
}

// The same line 100,000 times: named before, or faulty at once, or not looked at.
fn lines(tally: Tally) -> Tally {
    let mut text = zeros();
    repeat(&mut text, 0, b"0 1 5\n");
    cases::refused_calls(
        tally,
        &text,
        b"32 0 1100 20 2;32 1 1100 18 1;1 0 1100 17 1;32 32 1100 4 0;32 0 1023 14 0;",
    )
}

// And after all 961 lines that a list of 32 vertices can have.
fn after_all(tally: Tally) -> Tally {
    let full = [NO_ARC - 1; WORDS];
    let list = making::list(full, 32, 0, making::shuffled(Random::seeded(7), 32));
    let mut text = zeros();
    repeat(&mut text, list.length, b"0 1 5\n");
    access::put(&mut text, 0, list.as_slice());
    cases::refused(tally, &text, 32, 0, WORDS, 20, 962)
}

fn digits() -> [u8; DIGITS_ROOM] {
    [b'9'; DIGITS_ROOM]
}

// A million digits, with what stands before and behind them.
fn number(tally: Tally, before: &[u8], after: &[u8], answer: u32, line: usize) -> Tally {
    let mut text = digits();
    let end = before.len().wrapping_add(DIGITS);
    access::put(&mut text, 0, before);
    access::put(&mut text, end, after);
    let s = access::front(&text, end.wrapping_add(after.len()));
    cases::refused(tally, s, 32, 31, WORDS, answer, line)
}

// As a price, as a position, with no line feed, with a needless 0, and in a second line.
fn numbers(tally: Tally) -> Tally {
    let befores = b"0 1 ;0 1 ;0 1 ;0 1 0;0 ;;;0 1 5\n0 1 ";
    let afters = b"\n;;x\n;\n; 5\n; 1 5\n;;\n0 1 5";
    let mut t = tally;
    for k in 0u32..8 {
        let before = buffers::nth(befores, k, b';');
        let after = buffers::nth(afters, k, b';');
        let answer = buffers::number(b"19 16 16 16 17 17 16 19", k);
        let line = buffers::number(b"1 1 1 1 1 1 1 2", k) as usize;
        t = number(t, before, after, answer, line);
    }
    t
}

pub fn all(tally: Tally) -> Tally {
    numbers(after_all(lines(tally)))
}
