// History cards, bit by bit: the new cards of document 02, A8, "Cards that remember the presses"; an old card is called
// a plain card here. "A new card starts with six bits 63, then the bits of the old card without filling, then an 8-bit
// count of recorded presses, then the records, oldest first".
use crate::access::narrow;
use crate::card;
use crate::card::{CARD_ROOM, Card};
use crate::fields::{field, put_field, whole_bytes};
use crate::history::{History, Kind, RECORDS, Record};
use crate::problem::{MAX_VERTICES, Problem};
use crate::refusals::{BAD_COUNT, BAD_LENGTH, BAD_RECORDS};

// "six bits 63", which no plain card that opens begins with.
const START: u32 = 63;

const START_BITS: u32 = 6;

// "an 8-bit count"; of the records "each a 2-bit kind: 0 a link (feeder 5, fed 5, replaced mark 2), 1 the replaced
// budget (25), 2 a group (feeder 5, set 32 with link members only, then 2 bits for each member upwards)".
const COUNT_BITS: u32 = 8;

const KIND_BITS: u32 = 2;

const VERTEX_BITS: u32 = 5;

const MARK_BITS: u32 = 2;

const BUDGET_BITS: u32 = 25;

const SET_BITS: u32 = 32;

// Where the count of a card for n positions begins, and where its records do.
pub fn count_at(n: u32) -> u32 {
    START_BITS.wrapping_add(card::bits_of(n))
}

pub fn records_at(n: u32) -> u32 {
    count_at(n).wrapping_add(COUNT_BITS)
}

// The mark of a head, if the record names it, and where the next one begins.
fn put_mark(out: &mut [u8], at: u32, r: &Record, head: u32) -> u32 {
    if !r.names(head) {
        return at;
    }
    put_field(out, at, MARK_BITS, u32::from(r.mark_at(head)));
    at.wrapping_add(MARK_BITS)
}

// "2 bits for each member upwards": from the lowest on. Says where the next record begins.
fn put_marks(out: &mut [u8], from: u32, r: &Record) -> u32 {
    let mut at = from;
    for head in 0..MAX_VERTICES {
        at = put_mark(out, at, r, head);
    }
    at
}

// What stands behind the kind of a link or a group: the feeder; then a fed position or a set, "most significant bit
// first", and the marks.
fn put_arcs(out: &mut [u8], at: u32, width: u32, r: &Record) -> u32 {
    let heads = at.wrapping_add(VERTEX_BITS);
    put_field(out, at, VERTEX_BITS, r.first);
    put_field(out, heads, width, r.second);
    put_marks(out, heads.wrapping_add(width), r)
}

// The bits of a record, and where the next one begins. Kind 3 is "two bits long".
fn put_record(out: &mut [u8], from: u32, r: &Record) -> u32 {
    let at = from.wrapping_add(KIND_BITS);
    put_field(out, from, KIND_BITS, r.kind.number());
    match r.kind {
        Kind::Link => put_arcs(out, at, VERTEX_BITS, r),
        Kind::Budget => {
            put_field(out, at, BUDGET_BITS, r.first);
            at.wrapping_add(BUDGET_BITS)
        }
        Kind::Group => put_arcs(out, at, SET_BITS, r),
        Kind::None => at,
    }
}

// The records that there are, which are at most 200 whatever the count says.
fn put_records(out: &mut [u8], from: u32, h: &History) -> u32 {
    let mut at = from;
    for r in h.recorded() {
        at = put_record(out, at, r);
    }
    at
}

// The history card of an instance with records, lawful or not. "Zero bits fill the last byte".
pub fn build(p: Problem, h: History) -> Card {
    let mut bytes = [0; CARD_ROOM];
    put_field(&mut bytes, 0, START_BITS, START);
    card::put_plain_bits(&mut bytes, START_BITS, p);
    put_field(&mut bytes, count_at(p.n), COUNT_BITS, h.count);
    let end = put_records(&mut bytes, records_at(p.n), &h);
    Card {
        bytes,
        length: whole_bytes(end),
    }
}

// 3 where bits up to there "run past the end".
fn check_end(card: &[u8], end: u32) -> Result<(), u32> {
    if card.len() < whole_bytes(end) as usize {
        return Err(BAD_LENGTH);
    }
    Ok(())
}

// How many bits a record takes. A set counts with the positions that are not there too.
pub fn length_of(r: &Record) -> u32 {
    let marks = MARK_BITS.wrapping_mul(r.second.count_ones());
    match r.kind {
        Kind::Link => KIND_BITS + VERTEX_BITS + VERTEX_BITS + MARK_BITS,
        Kind::Budget => KIND_BITS + BUDGET_BITS,
        Kind::Group => (KIND_BITS + VERTEX_BITS + SET_BITS).wrapping_add(marks),
        Kind::None => KIND_BITS,
    }
}

// The record with the marks that stand from here on, upwards.
fn with_marks_at(card: &[u8], from: u32, r: Record) -> Record {
    let mut s = r;
    let mut at = from;
    for head in 0..MAX_VERTICES {
        if r.names(head) {
            s = s.with_mark(head, narrow(field(card, at, MARK_BITS)));
            at = at.wrapping_add(MARK_BITS);
        }
    }
    s
}

// The record that begins here, with 0 for the bits past the end; of kind 3 only the kind counts.
fn record_at(card: &[u8], from: u32) -> Record {
    let at = from.wrapping_add(KIND_BITS);
    let kind = Kind::of_number(field(card, from, KIND_BITS));
    if kind == Kind::Budget {
        return Record::of_budget(field(card, at, BUDGET_BITS));
    }
    let width = if kind == Kind::Link {
        VERTEX_BITS
    } else {
        SET_BITS
    };
    let heads = at.wrapping_add(VERTEX_BITS);
    let r = Record::new(
        kind,
        field(card, at, VERTEX_BITS),
        field(card, heads, width),
    );
    with_marks_at(card, heads.wrapping_add(width), r)
}

// What a card with records says.
#[derive(Clone, Copy)]
pub struct Reading {
    pub problem: Problem,
    pub history: History,
}

// The records of a card so far, and where the next one begins.
#[derive(Clone, Copy)]
struct Progress {
    at: u32,
    history: History,
}

// "each whole record in turn, 3 where it runs past the end, else 27".
fn with_next(card: &[u8], p: &Problem, s: Progress) -> Result<Progress, u32> {
    let r = record_at(card, s.at);
    let end = s.at.wrapping_add(length_of(&r));
    check_end(card, end)?;
    if !r.is_lawful(p) {
        return Err(BAD_RECORDS);
    }
    Ok(Progress {
        at: end,
        history: s.history.with(r),
    })
}

// The count and the records of a card whose plain bits say that: "for the count", "3 where it runs past the end, else
// 27 for a count above 200".
fn read_records(card: &[u8], p: &Problem) -> Result<Progress, u32> {
    let count = field(card, count_at(p.n), COUNT_BITS);
    check_end(card, records_at(p.n))?;
    if (RECORDS as u32) < count {
        return Err(BAD_RECORDS);
    }
    let mut s = Progress {
        at: records_at(p.n),
        history: History::empty(),
    };
    for k in 0..count {
        s = with_next(card, p, s)?;
    }
    Ok(s)
}

// 1, then 2 for a card of the other kind or a bad number of positions, then "3 now meaning that the old bits run past
// the end".
fn check_start(card: &[u8], n: u32) -> Result<(), u32> {
    card::check_start(card)?;
    if !is_history_card(card) {
        return Err(BAD_COUNT);
    }
    card::check_count(n)?;
    check_end(card, count_at(n))
}

// A history card. "1 to 7 keep their order ..; then, for the count and each whole record in turn ..; then 3 if whole
// bytes remain; then 8."
pub fn read(card: &[u8]) -> Result<Reading, u32> {
    check_start(card, positions_of(card))?;
    let p = card::read_plain_bits(card, START_BITS)?;
    let s = read_records(card, &p)?;
    if (whole_bytes(s.at) as usize) < card.len() {
        return Err(BAD_LENGTH);
    }
    card::check_filling(card, s.at)?;
    Ok(Reading {
        problem: p,
        history: s.history,
    })
}

// The number of positions on a history card.
pub fn positions_of(card: &[u8]) -> u32 {
    field(card, START_BITS, card::N_BITS)
}

// Whether a card begins with "six bits 63".
pub fn is_history_card(card: &[u8]) -> bool {
    field(card, 0, START_BITS) == START
}

// A card of either kind: "Old cards still open."
pub fn open(card: &[u8]) -> Result<Reading, u32> {
    if is_history_card(card) {
        return read(card);
    }
    Ok(Reading {
        problem: card::read(card)?,
        history: History::empty(),
    })
}
