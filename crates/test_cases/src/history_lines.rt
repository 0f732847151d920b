// Lines on cards that are given byte by byte: cards with records, and cards moved from one kind to the other.
use harness::session::Session;
use harness::{calls, history_calls, session};
use reference::card::{CARD_ROOM, Card};
use reference::moves::Move;
use reference::refusals::number_of;
use reference::script::Line;
use reference::{access, history_card, moves};

// The bytes before the colon.
fn card_of(line: Line) -> Card {
    let mut c = Card {
        bytes: [0; CARD_ROOM],
        length: line.inputs,
    };
    for (place, k) in c.bytes.iter_mut().zip(0..line.inputs) {
        *place = access::narrow(line.number(k.wrapping_add(1)));
    }
    c
}

// "Card of 252 16 0 0 0 0 0: 0": the answer to a card of these bytes, the reference's and the planner's.
pub fn opening_right(line: Line) -> bool {
    let c = card_of(line);
    let answer = line.expected(1);
    number_of(history_card::open(c.as_slice())) == answer && calls::open(c).answer == answer
}

// It stays open for the lines after it, if it opens.
pub fn after_opening(line: Line, s: Session) -> Session {
    let c = card_of(line);
    match history_card::open(c.as_slice()) {
        Ok(r) => session::opened_from(c, r.problem, r.history),
        Err(_) => s,
    }
}

// "records: 252 16 0 0 0 0 0": the history card of what the log says has these bytes, and the board is written so.
pub fn records_right(line: Line, s: Session) -> bool {
    let c = history_card::build(session::problem_now(s), s.log.records_now());
    c.length.wrapping_add(line.inputs) == line.count
        && line.expects_bytes(&c.bytes)
        && session::history_write_right(s)
}

// Whether the line expects the answer 0 and then the bytes of that card.
fn expects_card(line: Line, c: Card) -> bool {
    let mut rest = line;
    rest.inputs = line.inputs.wrapping_add(1);
    c.length.wrapping_add(rest.inputs) == line.count && rest.expects_bytes(&c.bytes)
}

// "History card from 8 0 0 0 80 0 5 0: 0 252 32 0 0 1 64 0 20 0", "Plain card from 8 0 0 0: 1": a card of these bytes
// moved to the kind that is named; the answer, and where it is 0 the bytes of the other card.
pub fn move_right(line: Line, way: Move) -> bool {
    let c = card_of(line);
    let answer = line.expected(1);
    let w = history_calls::moved_with(c, way, CARD_ROOM as u32);
    match moves::moved(c.as_slice(), way) {
        Err(refusal) => refusal == answer && w.answer == answer,
        Ok(right) => answer == 0
            && w.answer == 0
            && expects_card(line, right)
            && session::is_written(w, right),
    }
}
