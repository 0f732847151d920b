// Texts with one thing changed. Some of them are lists all the same.
use crate::buffers;
use crate::making::{ROOM, Text};
use reference::access;
use reference::random::Random;
use reference_prices::places::{entry, next};
use reference_prices::{line, write};

// A byte changed, added, taken out; the text cut.
const CHANGED: u32 = 0;

const ADDED: u32 = 1;

const TAKEN: u32 = 2;

const CUT: u32 = 3;

// A line once more, as it is or with another price.
const DOUBLED: u32 = 4;

const NAMED_AGAIN: u32 = 5;

// A number with more digits, and another number in its place.
const LONG: u32 = 6;

const OTHER_NUMBER: u32 = 7;

// The last kind is a line more.
pub const KINDS: u32 = 9;

// Each kind alone, and each followed by another.
pub const WAYS: u32 = 18;

// The text with other bytes in the place of those from one place to another.
fn spliced(text: Text, from: usize, to: usize, bytes: &[u8]) -> Text {
    let whole = text.as_slice();
    let before = access::front(whole, from);
    let after = buffers::back(whole, to);
    let first = before.len();
    let second = first.wrapping_add(bytes.len());
    let mut out = [0; ROOM];
    access::put(&mut out, 0, before);
    access::put(&mut out, first, bytes);
    access::put(&mut out, second, after);
    Text {
        bytes: out,
        length: second.wrapping_add(after.len()),
    }
}

fn some_place(text: Text, g: Random) -> usize {
    let length = (text.length % ROOM) as u32;
    g.below(length) as usize
}

// Mostly one that lists have, or nearly.
fn some_byte(g: Random) -> u8 {
    let h = g.next();
    if g.below(6) == 0 {
        return access::narrow(h.word());
    }
    entry(b"0123456789    \n\n\n\r\t-+.,", h.below(24) as usize)
}

fn is_mark(b: u8, of_number: bool) -> bool {
    b == b'\n' || of_number && b == b' '
}

// Where the line begins, or the number, that has the byte at a place; and where it ends.
fn begin(text: &[u8], at: usize, of_number: bool) -> usize {
    (0..at)
        .rev()
        .find(|&k| is_mark(entry(text, k), of_number))
        .map_or(0, next)
}

fn end(text: &[u8], at: usize, of_number: bool) -> usize {
    (at..text.len())
        .find(|&k| is_mark(entry(text, k), of_number))
        .unwrap_or(text.len())
}

// The line that has the byte at a place once more, before the line that has the byte at another.
fn doubled(text: Text, at: usize, other: usize) -> Text {
    let whole = text.as_slice();
    let line = buffers::part(whole, begin(whole, at, false), next(end(whole, at, false)));
    let to = begin(whole, other, false);
    spliced(text, to, to, line)
}

// Its first two numbers, with a price above the limit or a right one.
fn named_again(text: Text, at: usize, other: usize, is_above: bool) -> Text {
    let whole = text.as_slice();
    let from = begin(whole, at, false);
    let l = line::split(whole, from);
    let to = begin(whole, other, false);
    let arc = buffers::part(whole, from, next(l.second));
    let price = to.wrapping_add(arc.len());
    let t = spliced(text, to, to, arc);
    if is_above {
        return spliced(t, price, price, b"1048575\n");
    }
    spliced(t, price, price, b"1048574\n")
}

// Digits in front of a number, behind it, or inside.
fn lengthened(text: Text, at: usize, place: u32, kind: u32) -> Text {
    let whole = text.as_slice();
    let to = match place {
        0 => begin(whole, at, true),
        1 => end(whole, at, true),
        _ => at,
    };
    let digits = buffers::nth(
        b"0;1;42949672960;00000000000000000000;18446744073709551616",
        kind,
        b';',
    );
    spliced(text, to, to, digits)
}

// A number that is near a limit, or that is another one where it wraps; or nothing.
fn replaced(text: Text, at: usize, kind: u32) -> Text {
    let whole = text.as_slice();
    let other = buffers::nth(
        b"0;1;2;7;10;31;32;256;1048574;1048575;1048576;4294967296;4294967297;18446744073709551616;00;",
        kind,
        b';',
    );
    spliced(text, begin(whole, at, true), end(whole, at, true), other)
}

// A line of any arc, with positions a little above the count too.
fn with_line(text: Text, at: usize, g: Random, n: u32) -> Text {
    let to = begin(text.as_slice(), at, false);
    let h = g.next();
    let more = n.wrapping_add(g.below(2));
    let mut line = [0; 32];
    let length = write::put_line(
        &mut line,
        0,
        h.below(more),
        h.next().below(more),
        h.next().next().below(1048580),
    );
    spliced(text, to, to, access::front(&line, length))
}

pub fn damaged(text: Text, g: Random, n: u32, kind: u32) -> Text {
    let h = g.next();
    let i = h.next();
    let at = some_place(text, g);
    let other = some_place(text, h);
    let one = [some_byte(h); 1];
    match kind {
        CHANGED => spliced(text, at, next(at), &one),
        ADDED => spliced(text, at, at, &one),
        TAKEN => spliced(text, at, next(at), b""),
        CUT => spliced(text, at, ROOM, b""),
        DOUBLED => doubled(text, at, other),
        NAMED_AGAIN => named_again(text, at, other, i.below(2) == 0),
        LONG => lengthened(text, at, h.below(3), i.below(5)),
        OTHER_NUMBER => replaced(text, at, i.below(16)),
        _ => with_line(text, at, i, n),
    }
}
