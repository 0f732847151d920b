// The cells of a card, read and judged.
ghost use Rattle.std.specs.Prelude.{◌≡◌, true, ◌+◌, ◌*◌, ◌≤◌, ◌<◌, length};
ghost use Rattle.bits.specs.Bits.{bits_in};
ghost use Rattle.instance.specs.Limits.{cells};
ghost use Rattle.instance.specs.RefusalNumbers.{answer_of};
ghost use Rattle.card_format.specs.Widths.{cell_width};
ghost use Rattle.card_format.specs.Card.{on_card, max_card, cell_refusal};
ghost use Rattle.card_format.specs.Offsets.{offset};
ghost use Rattle.card.specs.Cells.{CellRead, CellsRead};

use crate::widths::{CELL_WIDTH, HEADER_WIDTH, MARK_WIDTH, WEIGHT_WIDTH};
use checks::arc::can_be_arc;
use instance::limits::{CELLS, FREE, MAX_WEIGHT, NO_ARC};
use instance::refusals::Refusal;

// Whether cell `i` is on the card: its tail and head are vertices, differ, and the head is not the root.
pub fn on_card(n: u32, root: u32, i: usize) -> bool
    requires { i < cells }
    ensures { result ≡ on_card n root i }
{
    can_be_arc(n, root, (i / 32) as u32, (i % 32) as u32)
}

// A cell of a card, and where the next one begins.
#[derive(Clone, Copy)]
pub struct Cell {
    pub weight: u32,
    pub mark: u8,
    pub next: usize,
}

// Cell `i`, whose bits begin at `at` if it is on the card.
fn read_cell(card: &[u8], n: u32, root: u32, i: usize, at: usize) -> Cell
    requires { (i < cells) × (at ≤ 16 * max_card) × (on_card n root i ≡ true → at + cell_width ≤ 8 * length card.now) }
    ensures { CellRead (bits_in card.now) n root i at result }
{
    if on_card(n, root, i) {
        let weight = bits::read_bits(card, at, WEIGHT_WIDTH);
        let mark = bits::read_bits(card, at + WEIGHT_WIDTH, MARK_WIDTH);
        return Cell {
            weight,
            mark: mark as u8,
            next: at + CELL_WIDTH,
        };
    }
    Cell {
        weight: NO_ARC,
        mark: FREE,
        next: at,
    }
}

// A mark that a field can hold and an arc cannot.
const UNUSED_MARK: u8 = 3;

// Refusals 6 and 7 of one cell. No cell of a card gets a 6 (six-retired in card_format).
fn judge_cell(weight: u32, mark: u8) -> Result<(), Refusal>
    ensures { answer_of result ≡ cell_refusal weight mark }
{
    if weight <= MAX_WEIGHT {
        if mark == UNUSED_MARK {
            return Err(Refusal::BadMark);
        }
        return Ok(());
    }
    if weight != NO_ARC {
        return Err(Refusal::BadWeight);
    }
    if mark != FREE {
        return Err(Refusal::BadMark);
    }
    Ok(())
}

// What the cells say: the weights, the marks and where the bits of the last cell end.
#[derive(Clone, Copy)]
pub struct Cells {
    pub weights: [u32; CELLS],
    pub marks: [u8; CELLS],
    pub end: usize,
}

// All cells of the card whose bits begin at `start`, or the refusal of the first faulty one.
pub fn read_cells(card: &[u8], start: usize, n: u32, root: u32) -> Result<Cells, Refusal>
    requires { (start + offset n root cells ≤ 8 * length card.now) × (offset n root cells ≤ 8 * max_card) × (start ≤ 8 * max_card) }
    ensures { CellsRead (bits_in card.now) start n root result }
{
    let mut weights = [NO_ARC; CELLS];
    let mut marks = [FREE; CELLS];
    let mut end = start + HEADER_WIDTH;
    for i in 0..CELLS {
        let cell = read_cell(card, n, root, i, end);
        judge_cell(cell.weight, cell.mark)?;
        weights[i] = cell.weight;
        marks[i] = cell.mark;
        end = cell.next;
    }
    Ok(Cells {
        weights,
        marks,
        end,
    })
}
