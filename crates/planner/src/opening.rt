// A board from a card of either kind.
ghost use Rattle.std.specs.Prelude.{◌≡◌};
ghost use Rattle.board.specs.Create.{opening_of};
ghost use Rattle.planner.specs.Opening.{plain_opened, opened_from};

use board::Board;
use board::create::new_board;
use card::read::{Contents, read_card};
use history_card::open::{is_history_card, open_history};
use instance::refusals::Refusal;

// A plain card as a board with no history; a history card is refused with 2.
pub fn open_plain(bytes: &[u8]) -> Result<Board, Refusal>
    ensures { opening_of result ≡ plain_opened bytes.now }
{
    let Contents {
        n,
        root,
        budget,
        weights,
        marks,
    } = read_card(bytes)?;
    Ok(new_board(n, root, budget, weights, marks))
}

pub fn open_card(bytes: &[u8]) -> Result<Board, Refusal>
    ensures { opening_of result ≡ opened_from bytes.now }
{
    if is_history_card(bytes) {
        return open_history(bytes);
    }
    open_plain(bytes)
}
