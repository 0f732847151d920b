// Cards moved from one kind to the other (document 02, A8): "A card moves old to new with no records, and new to old
// only without records". "A move handed the other kind is 2; after these, 28 for a move to old with records, then 14."
use crate::card::{Card, N_BITS, bytes_of};
use crate::fields::{field, whole_bytes};
use crate::history::History;
use crate::refusals::{BUFFER_SHORT, HAS_RECORDS};
use crate::{card, history_card};

// The two moves.
#[derive(Clone, Copy, PartialEq, Eq)]
pub enum Move {
    ToHistory,
    ToPlain,
}

impl Move {
    // The move back.
    pub fn back(self) -> Move {
        match self {
            Move::ToHistory => Move::ToPlain,
            Move::ToPlain => Move::ToHistory,
        }
    }
}

// Plain to history. By the plain card's own rules a history card has a bad number of positions, 63.
fn to_history(card: &[u8]) -> Result<Card, u32> {
    let p = card::read(card)?;
    Ok(history_card::build(p, History::empty()))
}

// History to plain.
fn to_plain(card: &[u8]) -> Result<Card, u32> {
    let r = history_card::read(card)?;
    if r.history.count != 0 {
        return Err(HAS_RECORDS);
    }
    Ok(card::build(r.problem))
}

// The card that a move gives where there is room enough, or the number of the refusal.
pub fn moved(card: &[u8], way: Move) -> Result<Card, u32> {
    match way {
        Move::ToHistory => to_history(card),
        Move::ToPlain => to_plain(card),
    }
}

// How many bytes a card has that was moved, by the number of positions alone, whether or not the move is refused.
pub fn length_moved(card: &[u8], way: Move) -> u32 {
    match way {
        Move::ToHistory => whole_bytes(history_card::records_at(field(card, 0, N_BITS))),
        Move::ToPlain => bytes_of(history_card::positions_of(card)),
    }
}

// The answer where so many bytes are lent: "then 14".
pub fn with_room(moved: Result<Card, u32>, room: u32) -> Result<Card, u32> {
    let c = moved?;
    if room < c.length {
        return Err(BUFFER_SHORT);
    }
    Ok(c)
}
