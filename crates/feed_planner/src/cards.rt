// A card judged, written again as a plain card, and moved from one kind to the other.
ghost use Rattle.std.specs.Prelude.{◌≡◌};
ghost use Rattle.history_format.specs.HistoryCard.{open_refusal};
ghost use Rattle.feed_planner.specs.Cards.{StoresPlain, StoresToHistory, StoresToPlain};

use crate::words::keep_written;
use card::write::write_instance;
use planner::{open_card, to_history_card, to_plain_card};

// 0 where the card opens as a board, or its refusal.
pub fn feed_judge(card: &[u8]) -> u32
    ensures { result ≡ open_refusal card.now }
{
    match open_card(card) {
        Ok(_) => 0,
        Err(refusal) => u32::from(refusal),
    }
}

// The board that a card opens as is valid, so it is written without being judged again.
pub fn feed_write_card(card: &[u8], out: &mut [u8], length: &mut usize) -> u32
    ensures { StoresPlain card.now out.old out.new length.old length.new result }
{
    let b = match open_card(card) {
        Ok(board) => board,
        Err(refusal) => return u32::from(refusal),
    };
    let written = write_instance(&b.weights, &b.marks, b.n, b.root, b.budget, out);
    keep_written(written, length)
}

pub fn feed_to_history_card(card: &[u8], out: &mut [u8], length: &mut usize) -> u32
    ensures { StoresToHistory card.now out.old out.new length.old length.new result }
{
    keep_written(to_history_card(card, out), length)
}

pub fn feed_to_plain_card(card: &[u8], out: &mut [u8], length: &mut usize) -> u32
    ensures { StoresToPlain card.now out.old out.new length.old length.new result }
{
    keep_written(to_plain_card(card, out), length)
}
