// Plain cards moved to history cards, and history cards to plain ones, against the reference: answers in their order,
// the bytes given, there and back, with buffers of any length.
use crate::{changed, compared, samples};
use harness::calls::CardOut;
use harness::history_calls;
use reference::card::{CARD_ROOM, Card};
use reference::history::History;
use reference::moves::Move;
use reference::random::Random;
use reference::refusals::{BAD_COUNT, BUFFER_SHORT, CARD_SHORT, HAS_RECORDS, number_of};
use reference::tally::Tally;
use reference::{access, history, history_card, moves};

// What the program counts beside the faults: each answer has a count.
const MOVES: u32 = 3;

const THERE_AND_BACK: u32 = 4;

const DUE: u32 = 5;

const ANSWERS: u32 = 6;

// The places of the answers' counts: those of an opened card, then 14 and 28.
fn nth_answer(answer: u32) -> u32 {
    match answer {
        BUFFER_SHORT => 11,
        HAS_RECORDS => 12,
        _ => compared::nth_answer(answer),
    }
}

// A move into so many bytes.
fn tried_with(tally: Tally, c: Card, way: Move, moved: Result<Card, u32>, room: u32) -> Tally {
    let due = moves::with_room(moved, room);
    let w = history_calls::moved_with(c, way, room);
    let t = tally
        .checked(MOVES, compared::written_right(w, due))
        .with(ANSWERS.wrapping_add(nth_answer(number_of(due))), 1);
    compared::planted_written(t, w, due, room.wrapping_mul(3))
}

// A move into a long buffer, one that is just long enough, one byte too short, and into one of no byte.
fn tried(tally: Tally, c: Card, way: Move) -> Tally {
    let moved = moves::moved(c.as_slice(), way);
    let length = moves::length_moved(c.as_slice(), way);
    let t = tried_with(tally, c, way, moved, CARD_ROOM as u32);
    let u = tried_with(t, c, way, moved, length);
    let v = tried_with(u, c, way, moved, length.wrapping_sub(1));
    tried_with(v, c, way, moved, 0)
}

fn tried_both(tally: Tally, c: Card) -> Tally {
    tried(tried(tally, c, Move::ToHistory), c, Move::ToPlain)
}

// What a move gave, as a card.
fn card_of(w: CardOut) -> Card {
    let bytes = w.bytes;
    Card {
        bytes,
        length: (w.length % CARD_ROOM) as u32,
    }
}

// "there and back gives the same bytes"; those of another card have to be reported.
fn there_and_back(tally: Tally, c: Card, way: Move, bit: u32) -> Tally {
    let there = history_calls::moved_with(c, way, CARD_ROOM as u32);
    let back = history_calls::moved_with(card_of(there), way.back(), CARD_ROOM as u32);
    let right = there.answer == 0 && compared::written_right(back, Ok(c));
    let other = changed::with_bit(c, bit);
    tally
        .checked(THERE_AND_BACK, right)
        .planted(!compared::written_right(back, Ok(other)))
}

// Whether a move has that answer, the reference's and the planner's.
fn is_answer(c: Card, way: Move, room: u32, answer: u32) -> bool {
    let due = moves::with_room(moves::moved(c.as_slice(), way), room);
    number_of(due) == answer && history_calls::moved_with(c, way, room).answer == answer
}

// A move whose answer 02 says by itself; 14 in its place, or 28 in that of 14, has to be reported.
fn tried_due(tally: Tally, c: Card, way: Move, room: u32, answer: u32) -> Tally {
    let other = if answer == BUFFER_SHORT {
        HAS_RECORDS
    } else {
        BUFFER_SHORT
    };
    tally
        .checked(DUE, is_answer(c, way, room, answer))
        .planted(!is_answer(c, way, room, other))
}

// The other kind is 2, into any buffer; under 5 bytes it is 1. Records are 28, and 28 comes before 14.
fn tried_refused(tally: Tally, plain: Card, recorded: Card, count: u32) -> Tally {
    let t = tried_due(tally, plain, Move::ToPlain, 0, BAD_COUNT);
    let u = tried_due(t, recorded, Move::ToHistory, 0, BAD_COUNT);
    let v = tried_due(
        u,
        changed::with_length(plain, 4),
        Move::ToPlain,
        0,
        CARD_SHORT,
    );
    let w = tried_due(
        v,
        changed::with_length(recorded, 4),
        Move::ToHistory,
        0,
        CARD_SHORT,
    );
    let held = if count == 0 {
        BUFFER_SHORT
    } else {
        HAS_RECORDS
    };
    tried_due(
        tried_due(w, recorded, Move::ToPlain, 0, held),
        plain,
        Move::ToHistory,
        0,
        BUFFER_SHORT,
    )
}

// Both moves of a card with a bit changed, with its last bit changed, cut, with a byte more, and with a budget that is
// too high.
fn tried_damaged(tally: Tally, c: Card, history: bool, g: Random) -> Tally {
    let bits = c.length.wrapping_mul(8);
    let t = tried_both(tally, changed::with_bit(c, g.below(bits)));
    let u = tried_both(t, changed::with_last_bit(c));
    let v = tried_both(u, changed::with_length(c, g.next().below(c.length)));
    let w = tried_both(v, changed::with_byte(c, access::narrow(g.word())));
    tried_both(w, changed::with_high_budget(c, history))
}

fn tried_sample(tally: Tally, k: u32) -> Tally {
    let s = samples::nth(k);
    let g = Random::seeded(k);
    let plain = samples::plain_card(s);
    let recorded = samples::recorded_card(s);
    let bare = history_card::build(s.problem, History::empty());
    let bit = g.below(plain.length.wrapping_mul(8));
    let t = tried_both(tried_both(tried_both(tally, plain), recorded), bare);
    let u = there_and_back(
        there_and_back(t, plain, Move::ToHistory, bit),
        bare,
        Move::ToPlain,
        bit,
    );
    let v = tried_refused(u, plain, recorded, s.history.count);
    tried_damaged(
        tried_damaged(tried_damaged(v, plain, false, g), recorded, true, g),
        bare,
        true,
        g,
    )
}

fn run(count: u32) -> Tally {
    (0..count).fold(Tally::zero(), |t, k| tried_sample(t, k))
}

pub fn all() {
    run(320).report(
        b"moves\nthere and back\nrefused by 02's words\nanswer 0:\nanswer 1:\nanswer 2:\nanswer 3:\nanswer 4:\n\
        answer 5:\nanswer 6:\nanswer 7:\nanswer 8:\nanswer 27:\nanother answer:\nanswer 14:\nanswer 28:\n",
    );
}
