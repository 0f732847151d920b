// A card of any bytes, read or refused.
ghost use Rattle.std.specs.Prelude.{◌≡◌, ◌+◌, ◌*◌, ◌≤◌, length, drop};
ghost use Rattle.bits.specs.Bits.{bits_in};
ghost use Rattle.card_format.specs.Widths.{header_width};
ghost use Rattle.card_format.specs.Card.{max_card, n_in, header_refusal};
ghost use Rattle.card.specs.Read.{fields_refusal, HeaderRead, CardRead};

use crate::cells::{Cells, read_cells};
use crate::widths::{BUDGET_WIDTH, N_WIDTH, ROOT_WIDTH};
use crate::{MIN_CARD, lengths};
use instance::limits::{CELLS, MAX_BUDGET, MAX_VERTICES};
use instance::refusals::Refusal;

// The fields before the cells.
#[derive(Clone, Copy)]
pub struct Header {
    pub n: u32,
    pub root: u32,
    pub budget: u32,
}

// Refusals 4 and 5: the fields behind that of the positions, which says `n` and begins at `start`.
pub fn read_fields(card: &[u8], start: usize, n: u32) -> Result<Header, Refusal>
    requires { (start + header_width ≤ 8 * length card.now) × (start ≤ 8 * max_card) }
    ensures { HeaderRead (fields_refusal n (drop start (bits_in card.now))) n (drop start (bits_in card.now)) result }
{
    let root = bits::read_bits(card, start + N_WIDTH, ROOT_WIDTH);
    if n <= root {
        return Err(Refusal::BadRoot);
    }
    let budget = bits::read_bits(card, start + (N_WIDTH + ROOT_WIDTH), BUDGET_WIDTH);
    if MAX_BUDGET < budget {
        return Err(Refusal::BadCardBudget);
    }
    Ok(Header { n, root, budget })
}

// Refusals 1 to 5.
fn read_header(card: &[u8]) -> Result<Header, Refusal>
    ensures { HeaderRead (header_refusal card.now 0) (n_in (bits_in card.now)) (bits_in card.now) result }
{
    if card.len() < MIN_CARD {
        return Err(Refusal::CardShort);
    }
    let n = bits::read_bits(card, 0, N_WIDTH);
    if n == 0 {
        return Err(Refusal::BadCount);
    }
    if MAX_VERTICES < n {
        return Err(Refusal::BadCount);
    }
    if card.len() != lengths::needed_length(n) {
        return Err(Refusal::BadLength);
    }
    read_fields(card, 0, n)
}

// What a card says: an instance.
#[derive(Clone, Copy)]
pub struct Contents {
    pub n: u32,
    pub root: u32,
    pub budget: u32,
    pub weights: [u32; CELLS],
    pub marks: [u8; CELLS],
}

// Refusals 1 to 8, of which 6 is retired, in document 01's order.
pub fn read_card(card: &[u8]) -> Result<Contents, Refusal>
    ensures { CardRead card.now result }
{
    let Header { n, root, budget } = read_header(card)?;
    let Cells {
        weights,
        marks,
        end,
    } = read_cells(card, 0, n, root)?;
    if bits::read_bits(card, end, 8 * card.len() - end) != 0 {
        return Err(Refusal::BadFilling);
    }
    Ok(Contents {
        n,
        root,
        budget,
        weights,
        marks,
    })
}
