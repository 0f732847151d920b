// A board written as a history card into the caller's buffer.
ghost use Rattle.std.specs.Prelude.{◌≡◌, true, length};
ghost use Rattle.bits.specs.Writer.{Ready, Put};
ghost use Rattle.card.specs.Write.{written_of};
ghost use Rattle.commands.specs.Valid.{valid};
ghost use Rattle.board.specs.ModelOf.{model_of};
ghost use Rattle.history_format.specs.HistoryCard.{history_bits};
ghost use Rattle.history_card.specs.Write.{HistoryWritten};

use crate::put::{put_records, records_width};
use crate::widths::{COUNT_WIDTH, HISTORY_MARKER, MARKER_WIDTH};
use bits::BitWriter;
use board::Board;
use card::lengths::needed_bits;
use card::write::put_instance;
use instance::refusals::Refusal;

// How many bits the card of a valid board has, without the filling.
fn history_width(b: Board) -> usize
    requires { valid (model_of b) ≡ true }
    ensures { result ≡ length (history_bits (model_of b)) }
{
    let records = &b.records[..b.count];
    MARKER_WIDTH + (needed_bits(b.n) + (COUNT_WIDTH + records_width(records)))
}

// The bits of a valid board's card, without the filling: the next bit of `out` goes where `start` says.
fn put_history(b: Board, start: BitWriter, out: &mut [u8]) -> BitWriter
    requires { (valid (model_of b) ≡ true) × Ready (length (history_bits (model_of b))) start out.old }
    ensures { Put (history_bits (model_of b)) start out.old out.new result }
{
    let after_marker = start.put_bits(HISTORY_MARKER, MARKER_WIDTH, out);
    let after_cells = put_instance(
        &b.weights,
        &b.marks,
        b.n,
        b.root,
        b.budget,
        after_marker,
        out,
    );
    let after_count = after_cells.put_bits(b.count as u32, COUNT_WIDTH, out);
    put_records(&b.records[..b.count], after_count, out)
}

// Writes the card of a valid board, and says how long it is; bytes behind it stay. Refused with 14 where the buffer is
// too short.
pub fn write_history(b: Board, out: &mut [u8]) -> Result<usize, Refusal>
    requires { valid (model_of b) ≡ true }
    ensures { HistoryWritten (model_of b) out.old out.new (written_of result) }
{
    let needed = (history_width(b) + 7) / 8;
    if out.len() < needed {
        return Err(Refusal::BufferShort);
    }
    let all = put_history(b, BitWriter::new(), out);
    all.fill_byte(out);
    Ok(needed)
}
