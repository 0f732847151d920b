// The planner's calls on cards with records (02, A8): a board written as a history card, and cards moved from one
// kind to the other; and what the old console says of a card.
use crate::buffers;
use crate::calls::{CardOut, card_out};
use board::Board;
use reference::access;
use reference::card::{CARD_ROOM, Card};
use reference::moves::Move;

// A board written as a history card, with the first so many bytes of the buffer lent.
pub fn write_with(b: Board, room: u32) -> CardOut {
    let mut bytes = [buffers::BYTE; CARD_ROOM];
    let written = planner::write_history_card(b, access::front_mut(&mut bytes, room as usize));
    card_out(written, bytes)
}

pub fn write(b: Board) -> CardOut {
    write_with(b, CARD_ROOM as u32)
}

// A plain card moved to a history card.
pub fn to_history_with(c: Card, room: u32) -> CardOut {
    let mut bytes = [buffers::BYTE; CARD_ROOM];
    let written = planner::to_history_card(
        c.as_slice(),
        access::front_mut(&mut bytes, room as usize),
    );
    card_out(written, bytes)
}

// A history card moved to a plain card.
pub fn to_plain_with(c: Card, room: u32) -> CardOut {
    let mut bytes = [buffers::BYTE; CARD_ROOM];
    let written = planner::to_plain_card(
        c.as_slice(),
        access::front_mut(&mut bytes, room as usize),
    );
    card_out(written, bytes)
}

// What the old console answers, which knows nothing of history cards.
pub fn old_console_answer(c: Card) -> u32 {
    match card::read::read_card(c.as_slice()) {
        Ok(_) => 0,
        Err(refusal) => u32::from(refusal),
    }
}

// A card moved, into the first so many bytes of a buffer.
pub fn moved_with(c: Card, way: Move, room: u32) -> CardOut {
    match way {
        Move::ToHistory => to_history_with(c, room),
        Move::ToPlain => to_plain_with(c, room),
    }
}
