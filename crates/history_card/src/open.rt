// A card of any bytes opened as a board with its history, or refused.
ghost use Rattle.std.specs.Prelude.{◌≡◌};
ghost use Rattle.card_format.specs.Card.{n_in};
ghost use Rattle.card.specs.Read.{HeaderRead};
ghost use Rattle.board.specs.Create.{opening_of};
ghost use Rattle.history_format.specs.HistoryCard.{is_history, behind_marker, history_header_refusal};
ghost use Rattle.history_card.specs.Open.{history_opened};

use crate::record::runs_past;
use crate::records::{read_count, read_records};
use crate::widths::{COUNT_WIDTH, HISTORY_MARKER, MARKER_WIDTH};
use board::Board;
use board::create::new_board;
use card::MIN_CARD;
use card::cells::{Cells, read_cells};
use card::lengths::needed_bits;
use card::read::{Header, read_fields};
use card::widths::N_WIDTH;
use instance::limits::MAX_VERTICES;
use instance::refusals::Refusal;

// Whether a card is a history card.
pub fn is_history_card(card: &[u8]) -> bool
    ensures { result ≡ is_history card.now }
{
    !card.is_empty() && bits::read_bits(card, 0, MARKER_WIDTH) == HISTORY_MARKER
}

// Refusals 1 to 5, and 2 for a plain card.
fn read_header(card: &[u8]) -> Result<Header, Refusal>
    ensures { HeaderRead (history_header_refusal card.now 0) (n_in (behind_marker card.now)) (behind_marker card.now) result }
{
    if card.len() < MIN_CARD {
        return Err(Refusal::CardShort);
    }
    if !is_history_card(card) {
        return Err(Refusal::BadCount);
    }
    let n = bits::read_bits(card, MARKER_WIDTH, N_WIDTH);
    if n == 0 {
        return Err(Refusal::BadCount);
    }
    if MAX_VERTICES < n {
        return Err(Refusal::BadCount);
    }
    if runs_past(card, MARKER_WIDTH + needed_bits(n)) {
        return Err(Refusal::BadLength);
    }
    read_fields(card, MARKER_WIDTH, n)
}

// A history card as a board; a plain one is refused with 2.
pub fn open_history(card: &[u8]) -> Result<Board, Refusal>
    ensures { opening_of result ≡ history_opened card.now }
{
    let Header { n, root, budget } = read_header(card)?;
    let Cells {
        weights,
        marks,
        end,
    } = read_cells(card, MARKER_WIDTH, n, root)?;
    let count = read_count(card, end)?;
    let records = read_records(card, &weights, n, root, end + COUNT_WIDTH, count)?;
    let mut board = new_board(n, root, budget, weights, marks);
    board.records = records;
    board.count = count;
    Ok(board)
}
