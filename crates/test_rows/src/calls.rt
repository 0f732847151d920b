// A call, with as much of its two lists as is handed over; what it gave, and what the reference says that it should
// give. A price stands in one place of the lists only, so a row that has one is known by its numbers.
use instance::Vertex;
use price_row::row_used;
use reference::access;
use reference::refusals::number_of;
use reference_rows::{EMPTY, NO_LINK, RowPart};

// More places than any call needs.
pub const ROOM: usize = 1100;

// More than a row has.
pub const ROW_ROOM: usize = 40;

#[derive(Clone, Copy)]
pub struct Call {
    pub n: u32,
    pub tail: u32,
    pub school: [u32; ROOM],
    pub shipped: [u32; ROOM],
    pub school_length: u32,
    pub shipped_length: u32,
}

// The answer, the row's length and its numbers.
#[derive(Clone, Copy, PartialEq, Eq)]
pub struct Shown {
    pub answer: u32,
    pub length: usize,
    pub numbers: [u32; ROW_ROOM],
}

// No link anywhere in the school's list, and in the shipped one 2,000 and its place; the whole of both is handed over.
pub fn plain(n: u32, tail: u32) -> Call {
    let mut c = Call {
        n,
        tail,
        school: [NO_LINK; ROOM],
        shipped: [0; ROOM],
        school_length: ROOM as u32,
        shipped_length: ROOM as u32,
    };
    for (place, number) in c.shipped.iter_mut().zip(2000u32..) {
        *place = number;
    }
    c
}

// Whether a number of the row is a price.
pub fn has_price(s: Shown) -> bool {
    access::front(&s.numbers, s.length)
        .iter()
        .any(|&x| x < NO_LINK)
}

// The row with another number at a place.
pub fn with_number_changed(s: Shown, place: u32) -> Shown {
    let mut f = s;
    f.numbers[place as usize % ROW_ROOM] ^= 1;
    f
}

// The call with another number in a place of a list.
pub fn with_number(c: Call, of_school: bool, place: u32, number: u32) -> Call {
    let mut d = c;
    let at = place as usize % ROOM;
    if of_school {
        d.school[at] = number;
    } else {
        d.shipped[at] = number;
    }
    d
}

// So many numbers of a list from a place on.
fn taken(answer: u32, list: &[u32], from: u32, length: usize) -> Shown {
    let mut numbers = [0; ROW_ROOM];
    let rest = list.get(from as usize..).unwrap_or_default();
    access::put(&mut numbers, 0, access::front(rest, length));
    Shown {
        answer,
        length,
        numbers,
    }
}

fn list_of(c: &Call, is_school: bool) -> &[u32] {
    if is_school { &c.school } else { &c.shipped }
}

// A part of one of the lists, or a refusal.
pub fn part(c: Call, used: Result<RowPart, u32>) -> Shown {
    let u = used.unwrap_or(EMPTY);
    let list = list_of(&c, u.is_school);
    taken(number_of(used), list, u.from, u.length as usize)
}

// One lifetime for both lists, as the call has it.
fn made<'a>(school: &'a [u32], shipped: &'a [u32], n: u32, tail: u32) -> Shown {
    let mut answer = 77;
    let row = row_used(school, shipped, n, Vertex(tail), &mut answer);
    taken(answer, row, 0, row.len())
}

pub fn by_product(c: Call) -> Shown {
    made(
        access::front(&c.school, c.school_length as usize),
        access::front(&c.shipped, c.shipped_length as usize),
        c.n,
        c.tail,
    )
}

pub fn by_reference(c: Call) -> Result<RowPart, u32> {
    reference_rows::used(
        access::front(&c.school, c.school_length as usize),
        access::front(&c.shipped, c.shipped_length as usize),
        c.n,
        c.tail,
    )
}
