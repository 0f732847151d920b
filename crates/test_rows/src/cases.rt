// Rows whose numbers are written out, from document 02's words, on standard input: the reference is held to them, and
// the product to the reference. A line has the count, the feeder, the lengths of the two lists, and two places of each
// list that hold something else than calls.rt says; it expects the answer, the length of the row and its first numbers.
use crate::calls::{Call, Shown};
use crate::{calls, faults};
use reference::script;
use reference::script::Line;
use reference::tally::Tally;

// Where the lines are counted, and the calls that they are.
const WRITTEN_OUT: u32 = 3;

fn call_of(line: Line) -> Call {
    let mut c = calls::plain(line.number(1), line.number(2));
    c.school_length = line.number(3);
    c.shipped_length = line.number(4);
    c = calls::with_number(c, true, line.number(5), line.number(6));
    c = calls::with_number(c, true, line.number(7), line.number(8));
    c = calls::with_number(c, false, line.number(9), line.number(10));
    calls::with_number(c, false, line.number(11), line.number(12))
}

// The answer, the length and as many numbers as the line has.
fn is_expected(line: Line, s: Shown) -> bool {
    let count = line.count.wrapping_sub(line.inputs);
    s.answer == line.expected(1)
        && s.length == line.expected(2) as usize
        && (3..count.wrapping_add(1))
            .zip(0usize..)
            .all(|(k, at)| s.numbers.get(at) == Some(&line.expected(k)))
}

fn tried(tally: Tally, line: Line) -> Tally {
    if !line.expects {
        return tally;
    }
    let c = call_of(line);
    let e = calls::part(c, calls::by_reference(c));
    faults::tried(
        tally.checked(WRITTEN_OUT, is_expected(line, e)),
        WRITTEN_OUT,
        c,
    )
}

pub fn all(text: &[u8]) -> Tally {
    script::fold_lines(text, Tally::zero(), |t, line| tried(t, line))
}
