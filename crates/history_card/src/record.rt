// One record on a card: read, and judged by the rule for the records of a board.
ghost use Rattle.std.specs.Prelude.{◌≡◌, ◌*◌, ◌≤◌, ltb, length, drop};
ghost use Rattle.bits.specs.Bits.{bits_in};
ghost use Rattle.instance.specs.Limits.{max_vertices, cells};
ghost use Rattle.instance.specs.Matrix.{unmarked};
ghost use Rattle.history_format.specs.RecordBits.{kind_in, form_refusal, record_refusal};
ghost use Rattle.history_card.specs.Marks.{last_place, last_bit};
ghost use Rattle.history_card.specs.Record.{ReadsRecord};

use crate::marks::{marks_width, read_marks};
use crate::widths::{
    BUDGET_KIND, BUDGET_RECORD_WIDTH, HEAD_START, HEADS_WIDTH, KIND_WIDTH, MARK_KIND,
    MARK_RECORD_WIDTH, MARK_START, MARKS_KIND, MARKS_START, VERTEX_WIDTH,
};
use board::Replaced;
use board::valid::record_ok;
use card::widths::{BUDGET_WIDTH, MARK_WIDTH};
use instance::limits::CELLS;
use instance::refusals::Refusal;

// Whether bits that end at `end` run past the end of the card: counted in bytes, since a card may have more bits than
// a word can count.
pub fn runs_past(card: &[u8], end: usize) -> bool
    requires { end ≤ last_bit }
    ensures { result ≡ ltb (8 * length card.now) end }
{
    card.len() < (end + 7) / 8
}

// What a record says and where it ends.
#[derive(Clone, Copy)]
pub struct RecordRead {
    pub replaced: Replaced,
    pub next: usize,
}

// A record of one arc, which begins at `at`.
fn read_mark_record(card: &[u8], at: usize) -> Result<RecordRead, Refusal>
    requires { (kind_in (drop at (bits_in card.now)) ≡ 0) × (at ≤ last_place) }
    ensures { ReadsRecord (form_refusal (drop at (bits_in card.now))) (drop at (bits_in card.now)) at result }
{
    let next = at + MARK_RECORD_WIDTH;
    if runs_past(card, next) {
        return Err(Refusal::BadLength);
    }
    let tail = bits::read_bits(card, at + KIND_WIDTH, VERTEX_WIDTH);
    let head = bits::read_bits(card, at + HEAD_START, VERTEX_WIDTH);
    let mark = bits::read_bits(card, at + MARK_START, MARK_WIDTH);
    Ok(RecordRead {
        replaced: Replaced::OldMark(tail as u8, head as u8, mark as u8),
        next,
    })
}

// A record of the budget.
fn read_budget_record(card: &[u8], at: usize) -> Result<RecordRead, Refusal>
    requires { (kind_in (drop at (bits_in card.now)) ≡ 1) × (at ≤ last_place) }
    ensures { ReadsRecord (form_refusal (drop at (bits_in card.now))) (drop at (bits_in card.now)) at result }
{
    let next = at + BUDGET_RECORD_WIDTH;
    if runs_past(card, next) {
        return Err(Refusal::BadLength);
    }
    let budget = bits::read_bits(card, at + KIND_WIDTH, BUDGET_WIDTH);
    Ok(RecordRead {
        replaced: Replaced::OldBudget(budget),
        next,
    })
}

// A record of several arcs: as long as its set has members, whether or not there are such arcs.
fn read_marks_record(card: &[u8], at: usize) -> Result<RecordRead, Refusal>
    requires { (kind_in (drop at (bits_in card.now)) ≡ 2) × (at ≤ last_place) }
    ensures { ReadsRecord (form_refusal (drop at (bits_in card.now))) (drop at (bits_in card.now)) at result }
{
    let start = at + MARKS_START;
    if runs_past(card, start) {
        return Err(Refusal::BadLength);
    }
    let heads = bits::read_bits(card, at + HEAD_START, HEADS_WIDTH);
    let next = start + marks_width(heads);
    if runs_past(card, next) {
        return Err(Refusal::BadLength);
    }
    let tail = bits::read_bits(card, at + KIND_WIDTH, VERTEX_WIDTH);
    let marks = read_marks(card, start, heads);
    Ok(RecordRead {
        replaced: Replaced::OldMarks(tail as u8, heads, marks),
        next,
    })
}

// The record that begins at `at`, not judged yet.
fn read_any_record(card: &[u8], at: usize) -> Result<RecordRead, Refusal>
    requires { at ≤ last_place }
    ensures { ReadsRecord (form_refusal (drop at (bits_in card.now))) (drop at (bits_in card.now)) at result }
{
    if runs_past(card, at + KIND_WIDTH) {
        return Err(Refusal::BadLength);
    }
    let kind = bits::read_bits(card, at, KIND_WIDTH);
    match kind {
        MARK_KIND => read_mark_record(card, at),
        BUDGET_KIND => read_budget_record(card, at),
        MARKS_KIND => read_marks_record(card, at),
        _ => Err(Refusal::BadRecord),
    }
}

// The record that begins at `at`, judged: refused with 3 where it runs past the end, else with 27.
pub fn read_record(
    card: &[u8],
    weights: &[u32; CELLS],
    n: u32,
    root: u32,
    at: usize,
) -> Result<RecordRead, Refusal>
    requires { (n ≤ max_vertices) × (length weights.now ≡ cells) × (at ≤ last_place) }
    ensures { ReadsRecord (record_refusal (unmarked n root weights.now) (drop at (bits_in card.now))) (drop at (bits_in card.now)) at result }
{
    let read = read_any_record(card, at)?;
    if !record_ok(weights, n, root, read.replaced) {
        return Err(Refusal::BadRecord);
    }
    Ok(read)
}
