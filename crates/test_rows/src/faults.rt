// Results with a fault planted, each of which the comparison has to report.
use crate::calls;
use crate::calls::{Call, Shown};
use reference::random::Random;
use reference::tally::Tally;
use reference_rows::{EMPTY, RowPart};

// The kinds of a fault are numbers, no enum: they are gone through and counted in this order. Where their counts begin.
const FIRST_COUNT: u32 = 10;

const ANSWER: u32 = 0;

const LENGTH: u32 = 1;

const NUMBER: u32 = 2;

// The same row of the other list, the next row, and the row from one place on: of a row that has a price, which stands
// nowhere else.
const OTHER_LIST: u32 = 3;

const NEXT_ROW: u32 = 4;

const NEXT_PLACE: u32 = 5;

const KINDS: u32 = 6;

fn other_part(u: RowPart, kind: u32) -> RowPart {
    let mut v = u;
    match kind {
        OTHER_LIST => v.is_school = !u.is_school,
        NEXT_ROW => v.from = u.from.wrapping_add(u.length),
        _ => v.from = u.from.wrapping_add(1),
    }
    v
}

fn with_fault(c: Call, u: RowPart, s: Shown, kind: u32) -> Shown {
    let mut f = s;
    match kind {
        ANSWER => f.answer = s.answer ^ 1,
        LENGTH => f.length = s.length ^ 1,
        NUMBER => f = calls::with_number_changed(s, Random::seeded(u.from).below(u.length)),
        _ => f = calls::part(c, Ok(other_part(u, kind))),
    }
    f
}

// A row has a number to change; and where it has a price, no other part is the same.
fn applies(kind: u32, u: RowPart, e: Shown) -> bool {
    match kind {
        ANSWER | LENGTH => true,
        NUMBER => 0 < u.length,
        _ => calls::has_price(e),
    }
}

// The result of a call held to what it should be, and then with each kind of fault.
pub fn tried(tally: Tally, which: u32, c: Call) -> Tally {
    let used = calls::by_reference(c);
    let e = calls::part(c, used);
    let s = calls::by_product(c);
    let u = used.unwrap_or(EMPTY);
    tally.checked(which, s == e).with_faults(
        FIRST_COUNT,
        KINDS,
        |kind| applies(kind, u, e),
        |kind| with_fault(c, u, s, kind) == e,
    )
}
