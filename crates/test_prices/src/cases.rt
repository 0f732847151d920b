// The documents' own cases, and texts that are easily read wrong: each with the answer and the line that document 02
// gives it, and the whole buffer.
use crate::buffers::{BYTES, WORDS};
use crate::readings::Reading;
use crate::writings::Writing;
use crate::{buffers, counts, readings, writings};
use reference::tally::Tally;
use reference_prices::numerals;
use reference_prices::refusals::NO_ARC;

// A text, by the reference and by the product.
fn read(tally: Tally, text: &[u8], n: u32, root: u32, room: usize, expected: Reading) -> Tally {
    let r = readings::by_reference(text, n, root, room);
    let g = readings::by_product(text, n, root, room);
    let t = readings::tried(tally, counts::DOCUMENTS, r, expected, n);
    readings::tried(t, counts::DOCUMENTS, g, expected, n)
}

// A list that is refused.
pub fn refused(
    tally: Tally,
    text: &[u8],
    n: u32,
    root: u32,
    room: usize,
    answer: u32,
    line: usize,
) -> Tally {
    read(
        tally,
        text,
        n,
        root,
        room,
        readings::untouched(answer, line),
    )
}

// A text of four vertices with root 0 that is refused, after the answer in two digits and the line in one.
fn faulty(tally: Tally, case: &[u8]) -> Tally {
    let answer = numerals::value(case, 0, 2);
    let line = numerals::value(case, 2, 3) as usize;
    refused(tally, buffers::back(case, 3), 4, 0, WORDS, answer, line)
}

// Such texts, with a semicolon behind each.
fn all_faulty(tally: Tally, texts: &[u8]) -> Tally {
    buffers::fold_parts(texts, tally, |t, case| faulty(t, case))
}

// One text in calls that each are refused, by rows of count, root, room, answer and line.
fn refused_call(tally: Tally, text: &[u8], row: &[u8]) -> Tally {
    let n = buffers::number(row, 0);
    let root = buffers::number(row, 1);
    let room = buffers::number(row, 2) as usize;
    let answer = buffers::number(row, 3);
    let line = buffers::number(row, 4) as usize;
    refused(tally, text, n, root, room, answer, line)
}

pub fn refused_calls(tally: Tally, text: &[u8], rows: &[u8]) -> Tally {
    buffers::fold_parts(rows, tally, |t, row| refused_call(t, text, row))
}

// A list that is accepted, with the prices that it says.
fn accepted(tally: Tally, text: &[u8], n: u32, root: u32, room: usize, prices: &[u32]) -> Tally {
    read(tally, text, n, root, room, readings::accepted(prices))
}

// "A line is feeder, space, fed, space, pence, line feed; decimal with no needless leading zero": what stands between
// and behind, and what is no number. "17 a position not below the count", also of more digits than any word has, or
// that is a lower one where it wraps; and so "19 a price above the limit": that of no link can not be typed. "by the
// first faulty line, in this order within it": each answer where later ones would be given too.
fn faults(tally: Tally) -> Tally {
    let t = all_faulty(
        tally,
        b"1610 1 5;1610 1 5\r\n;1610 1 5\r;161\n;161 ;161  \n;161 0 1 5\n;1610  1 5\n;1610 1  5\n;1610 1 5 \n;1610 1 5 6\n;1610 1\n5\n;1610\t1\t5\n;1610,1,5\n;1610 1\n;161015\n;16100 1 5\n;1610 01 5\n;1610 1 05\n;1610 1 00\n;161+0 1 5\n;1610 +1 5\n;1610 1 -5\n;1610 1 -0\n;1610 1 5.0\n;1610 1 0x5\n;1610 1 1,000\n;1610 / 5\n;1610 : 5\n;161 1 5\n;1610 1 \n;1620 1 5\n0 2 6;1620 1 5\n\n;1620 1 5\n\n0 2 6\n;1620 1 5\n0;1620 1 5\n\r\n;1630 1 5\n0 2 6\n ;1630 1 5\n0 2 6\n0 3 07\n;",
    );
    let t = all_faulty(
        t,
        b"1714 1 5\n;1710 4 5\n;1714 4 5\n;17110 1 5\n;1710 256 5\n;1710 257 5\n;1714294967296 1 5\n;1714294967297 2 5\n;1710 4294967296 5\n;1710 4294967297 5\n;17118446744073709551616 1 5\n;1710 18446744073709551616 5\n;1710 18446744073709551617 5\n;17112345678901234567890 1 5\n;1710 12345678901234567890 5\n;1910 1 1048575\n;1910 1 1048576\n;1910 1 2000000\n;1910 1 10000000\n;1910 1 4294967295\n;1910 1 4294967296\n;1910 1 4294967297\n;1910 1 18446744073709551616\n;1910 1 18446744073709551621\n;1910 1 12345678901234567890\n;",
    );
    all_faulty(
        t,
        b"1614 4 01\n;1719 0 1048575\n;1714 4 1048575\n;1811 1 1048575\n;1811 1 5\n;1811 0 5\n;1810 0 5\n;1910 1 1048575\n4 4 5\n\n;1720 1 5\n4 4 5\n0 1 5\n;1820 1 5\n1 1 5\n0 1 5\n;1920 1 5\n0 1 1048575\n;2020 1 5\n0 1 5\n;2020 1 5\n0 1 6\n;2020 1 5\n0 1 5\nx;2030 1 0\n2 1 0\n0 1 0\n;2050 1 5\n0 2 5\n0 3 5\n1 2 5\n0 2 5\n\n;",
    )
}

// Counts, roots and room come before the text; then one vertex, and the last of 32.
fn calls(tally: Tally) -> Tally {
    let t = refused_calls(
        tally,
        b"\n",
        b"0 0 1100 2 0;0 5 0 2 0;33 33 1100 2 0;4294967295 0 0 2 0;4 4 0 4 0;1 1 1100 4 0;32 4294967295 1100 4 0;4 3 15 14 0;1 0 0 14 0;32 31 1023 14 0;4 3 16 16 1;",
    );
    let t = refused_calls(
        t,
        b"0 1 5\n",
        b"1 0 1 17 1;2 1 4 18 1;2 2 4 4 0;2 1 3 14 0;",
    );
    let t = refused_calls(t, b"0 0 5\n", b"1 0 1 18 1;32 31 1024 18 1;32 0 1024 18 1;");
    refused_calls(t, b"32 1 5\n", b"32 0 1100 17 1;31 0 1100 17 1;")
}

// Sheet Q of document 01 in written order and in another; the empty text; the least and the greatest price.
fn lawful(tally: Tally) -> Tally {
    let x = NO_ARC;
    let q = [x, 10, 10, 8, x, x, 1, 4, x, 2, x, 9, x, 7, x, x];
    let text = b"0 1 10\n0 2 10\n0 3 8\n1 2 1\n1 3 4\n2 1 2\n2 3 9\n3 1 7\n";
    let t = accepted(tally, text, 4, 0, WORDS, &q);
    let t = accepted(t, text, 4, 0, 16, &q);
    let other = b"3 1 7\n0 3 8\n2 1 2\n1 2 1\n0 1 10\n2 3 9\n1 3 4\n0 2 10\n";
    let t = accepted(t, other, 4, 0, 17, &q);
    let one = [x];
    let t = accepted(t, b"", 1, 0, 1, &one);
    let none = [x; 1024];
    let t = accepted(t, b"", 32, 31, 1024, &none);
    let three = [x, x, 1048574, x, x, 0, x, x, x];
    let t = accepted(t, b"1 2 0\n0 2 1048574\n", 3, 1, WORDS, &three);
    let mut many = none;
    many[32 * 9 + 10] = 9;
    many[32 * 10 + 9] = 10;
    many[32 * 31 + 30] = 99999;
    accepted(t, b"31 30 99999\n9 10 9\n10 9 10\n", 32, 31, WORDS, &many)
}

// Prices, by the reference and by the product.
fn write(tally: Tally, prices: &[u32], n: u32, root: u32, room: usize, expected: Writing) -> Tally {
    let r = writings::by_reference(prices, n, root, room);
    let g = writings::by_product(prices, n, root, room);
    let t = writings::tried(tally, counts::DOCUMENTS, r, expected);
    writings::tried(t, counts::DOCUMENTS, g, expected)
}

fn written(tally: Tally, prices: &[u32], n: u32, root: u32, text: &[u8], room: usize) -> Tally {
    write(tally, prices, n, root, room, writings::accepted(text))
}

fn not_written(tally: Tally, prices: &[u32], row: &[u8]) -> Tally {
    let n = buffers::number(row, 0);
    let root = buffers::number(row, 1);
    let room = buffers::number(row, 2) as usize;
    write(
        tally,
        prices,
        n,
        root,
        room,
        writings::untouched(buffers::number(row, 3)),
    )
}

// Prices in calls that each are refused, by rows of count, root, room and answer.
fn not_written_calls(tally: Tally, prices: &[u32], rows: &[u8]) -> Tally {
    buffers::fold_parts(rows, tally, |t, row| not_written(t, prices, row))
}

// Sheet Q, with anything in the cells that can never be a link; no link at all.
fn writings_of_q(tally: Tally) -> Tally {
    let x = NO_ARC;
    let q = [7, 10, 10, 8, x + 2, 0, 1, 4, 5, 2, x + 1, 9, x, 7, x, 3];
    let text = b"0 1 10\n0 2 10\n0 3 8\n1 2 1\n1 3 4\n2 1 2\n2 3 9\n3 1 7\n";
    let t = written(tally, &q, 4, 0, text, BYTES);
    let t = written(t, &q, 4, 0, text, 50);
    let t = not_written_calls(
        t,
        &q,
        b"4 0 49 14;4 0 0 14;4 4 0 4;0 0 0 2;33 33 0 2;5 0 14400 14;",
    );
    let none = [x; 16];
    let t = written(t, &none, 4, 3, b"", 0);
    let one = [4294967295];
    written(t, &one, 1, 0, b"", 0)
}

// "14 for the prices, 19 for a cell not passed over that is neither a price nor no link, then 14 for the text".
fn writings_in_order(tally: Tally) -> Tally {
    let x = NO_ARC;
    let least = [x, 0, x - 1, x];
    let t = written(tally, &least, 2, 0, b"0 1 0\n", 6);
    let t = written(t, &least, 2, 1, b"1 0 1048574\n", 12);
    let t = not_written_calls(t, &least, b"2 1 11 14;2 0 5 14;");
    let above = [x, x + 1, 1, x];
    let t = written(t, &above, 2, 1, b"1 0 1\n", 7);
    not_written_calls(
        t,
        &above,
        b"2 0 0 19;2 0 14400 19;3 0 0 14;2 2 0 4;0 2 0 2;",
    )
}

// The greatest number in a cell, which is passed over where it leads to the root.
fn greatest(tally: Tally) -> Tally {
    let x = NO_ARC;
    let prices = [x, 1, x, x, x, 4294967295, x, x, x];
    let t = written(tally, &prices, 3, 2, b"0 1 1\n", BYTES);
    not_written_calls(t, &prices, b"3 0 14400 19;3 1 0 19;3 3 14400 4;")
}

pub fn all(tally: Tally) -> Tally {
    let t = faults(tally);
    let t = calls(t);
    let t = lawful(t);
    let t = writings_of_q(t);
    let t = writings_in_order(t);
    greatest(t)
}
