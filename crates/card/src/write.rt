// A card written into the caller's buffer.
ghost use Rattle.std.specs.Prelude.{◌≡◌, ◌≤◌, ◌<◌, length};
ghost use Rattle.bits.specs.Writer.{Ready, Put};
ghost use Rattle.instance.specs.Limits.{max_vertices, cells};
ghost use Rattle.instance.specs.Instance.{instance_with, without_budget};
ghost use Rattle.card_format.specs.Widths.{header_width};
ghost use Rattle.card_format.specs.Card.{bits_needed, header_bits, one_cell, cell_bits, instance_bits};
ghost use Rattle.card.specs.Write.{written_of, CardWritten};

use crate::widths::{BUDGET_WIDTH, MARK_WIDTH, N_WIDTH, ROOT_WIDTH, WEIGHT_WIDTH};
use crate::{cells, lengths};
use bits::BitWriter;
use instance::limits::CELLS;
use instance::refusals::Refusal;

fn put_header(n: u32, root: u32, budget: u32, start: BitWriter, out: &mut [u8]) -> BitWriter
    requires { Ready header_width start out.old }
    ensures { Put (header_bits n root budget) start out.old out.new result }
{
    let after_n = start.put_bits(n, N_WIDTH, out);
    let after_root = after_n.put_bits(root, ROOT_WIDTH, out);
    after_root.put_bits(budget, BUDGET_WIDTH, out)
}

// The bits of a cell: `n`, `root` and `i` say whether it is on the card, `weight` and `mark` are what it holds, and the
// next bit of `out` goes where `w` says. A cell that is not on the card puts none.
fn put_cell(
    n: u32,
    root: u32,
    i: usize,
    weight: u32,
    mark: u8,
    w: BitWriter,
    out: &mut [u8],
) -> BitWriter
    requires { (i < cells) × Ready (length (one_cell n root i weight mark)) w out.old }
    ensures { Put (one_cell n root i weight mark) w out.old out.new result }
{
    if cells::on_card(n, root, i) {
        let after_weight = w.put_bits(weight, WEIGHT_WIDTH, out);
        return after_weight.put_bits(mark as u32, MARK_WIDTH, out);
    }
    w
}

fn put_cells<'a>(
    weights: &'a [u32; CELLS],
    marks: &'a [u8; CELLS],
    n: u32,
    root: u32,
    start: BitWriter,
    out: &mut [u8],
) -> BitWriter
    requires weights_len { (length weights.now ≡ cells) × (length marks.now ≡ cells) }
    requires ready { Ready (length (cell_bits cells 0 (without_budget n root weights.now marks.now))) start out.old }
    ensures { Put (cell_bits cells 0 (without_budget n root weights.now marks.now)) start out.old out.new result }
{
    let mut w = start;
    for i in 0..CELLS {
        w = put_cell(n, root, i, weights[i], marks[i], w, out);
    }
    w
}

// The bits of a card, without the filling: the next bit of `out` goes where `start` says. (One lifetime, so that two
// fields of one struct can be lent.) The instance comes in its parts: a struct of them would be copied on the stack, of
// which a call may take 64 KiB.
pub fn put_instance<'a>(
    weights: &'a [u32; CELLS],
    marks: &'a [u8; CELLS],
    n: u32,
    root: u32,
    budget: u32,
    start: BitWriter,
    out: &mut [u8],
) -> BitWriter
    requires n_le_max_vertices { (n ≤ max_vertices) × (root < n) × (length weights.now ≡ cells) × (length marks.now ≡ cells) }
    requires ready { Ready (bits_needed n) start out.old }
    ensures { Put (instance_bits (instance_with n root budget weights.now marks.now)) start out.old out.new result }
{
    let header = put_header(n, root, budget, start, out);
    put_cells(weights, marks, n, root, header, out)
}

// Writes the card of the instance that the arguments make up, and says how long it is; bytes behind it stay. Refused
// with 14 where the buffer is too short.
pub fn write_instance<'a>(
    weights: &'a [u32; CELLS],
    marks: &'a [u8; CELLS],
    n: u32,
    root: u32,
    budget: u32,
    out: &mut [u8],
) -> Result<usize, Refusal>
    requires { (1 ≤ n) × (n ≤ max_vertices) × (root < n) × (length weights.now ≡ cells) × (length marks.now ≡ cells) }
    ensures { CardWritten (instance_with n root budget weights.now marks.now) out.old out.new (written_of result) }
{
    let needed = lengths::needed_length(n);
    if out.len() < needed {
        return Err(Refusal::BufferShort);
    }
    let all = put_instance(weights, marks, n, root, budget, BitWriter::new(), out);
    all.fill_byte(out);
    Ok(needed)
}
