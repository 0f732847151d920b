// Whether what a call gave is right by the reference; and the same with one thing changed, which has to be reported.
use harness::calls::{CardOut, Opened};
use harness::{buffers, histories, session};
use reference::card::{CARD_ROOM, Card};
use reference::history_card;
use reference::history_card::Reading;
use reference::refusals::BAD_RECORDS;
use reference::tally::Tally;

// What the reference reads on a card.
pub fn reading_of(c: Card) -> Result<Reading, u32> {
    history_card::open(c.as_slice())
}

// Whether opening gave the answer of a reading, and its instance with its records, or the blank board.
pub fn opened_right(o: Opened, due: Result<Reading, u32>) -> bool {
    match due {
        Ok(r) => o.answer == 0 && histories::is_board(o.board, r.problem, r.history),
        Err(answer) => o.answer == answer && histories::is_blank(o.board),
    }
}

// Whether a call that fills a buffer gave that card, with no other byte touched; or that refusal, with nothing touched.
pub fn written_right(w: CardOut, due: Result<Card, u32>) -> bool {
    match due {
        Ok(c) => session::is_written(w, c),
        Err(answer) => w.answer == answer
            && buffers::bytes_untouched(&w.bytes, 0, CARD_ROOM as u32),
    }
}

// What was written with another answer, another length, another byte at a place, one that was not to be touched too.
const WRITTEN_KINDS: u32 = 3;

fn with_fault(w: CardOut, kind: u32, at: u32) -> CardOut {
    let mut v = w;
    let place = at as usize % CARD_ROOM;
    match kind {
        0 => v.answer = w.answer.wrapping_add(1),
        1 => v.length = w.length.wrapping_add(1),
        _ => v.bytes[place] = w.bytes[place] ^ 1,
    }
    v
}

// Each of these has to be reported; a length only where something was written.
pub fn planted_written(tally: Tally, w: CardOut, due: Result<Card, u32>, at: u32) -> Tally {
    let mut t = tally;
    for kind in 0..WRITTEN_KINDS {
        if kind != 1 || due.is_ok() {
            t = t.planted(!written_right(with_fault(w, kind, at), due));
        }
    }
    t
}

// The place of an answer's count: 0 to 8 their own, then one for 27 and one for all others.
pub fn nth_answer(answer: u32) -> u32 {
    match answer {
        0..=8 => answer,
        BAD_RECORDS => 9,
        _ => 10,
    }
}
