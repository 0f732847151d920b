// Records put into a buffer, one behind the other, and how many bits they take.
ghost use Rattle.std.specs.Prelude.{◌≡◌, ◌++◌, ◌+◌, ◌≤◌, length};
ghost use Rattle.bits.specs.Bits.{bits_of};
ghost use Rattle.bits.specs.Writer.{Ready, Put};
ghost use Rattle.instance.specs.Limits.{max_records};
ghost use Rattle.heads.specs.RecordMarks.{record_marks};
ghost use Rattle.commands.specs.Model.{old_mark, old_marks, old_budget};
ghost use Rattle.board.specs.ModelOf.{replaced_of, history_of};
ghost use Rattle.history_format.specs.RecordBits.{record_bits};
ghost use Rattle.history_format.specs.HistoryCard.{records_bits};

use crate::marks::{marks_width, put_marks};
use crate::widths::{
    BUDGET_KIND, BUDGET_RECORD_WIDTH, HEADS_WIDTH, KIND_WIDTH, MARK_KIND, MARK_RECORD_WIDTH,
    MARKS_KIND, MARKS_START, VERTEX_WIDTH,
};
use bits::BitWriter;
use board::{Replaced, UndoRecord};
use card::widths::{BUDGET_WIDTH, MARK_WIDTH};

// How many bits a record takes.
fn record_width(replaced: Replaced) -> usize
    ensures { result ≡ length (record_bits (replaced_of replaced)) }
{
    match replaced {
        Replaced::OldMark(_, _, _) => MARK_RECORD_WIDTH,
        Replaced::OldBudget(_) => BUDGET_RECORD_WIDTH,
        Replaced::OldMarks(_, heads, _) => MARKS_START + marks_width(heads),
    }
}

// How many bits these records take.
pub fn records_width(records: &[UndoRecord]) -> usize
    requires { length records.now ≤ max_records }
    ensures { result ≡ length (records_bits (history_of (length records.now) records.now)) }
{
    let mut width: usize = 0;
    for record in records {
        width += record_width(record.replaced);
    }
    width
}

// Two fields, one behind the other: `j` bits of the first, `k` of the second.
fn put_two(first: u32, j: usize, second: u32, k: usize, w: BitWriter, out: &mut [u8]) -> BitWriter
    requires { Ready (j + k) w out.old × (j ≤ 32) × (k ≤ 32) }
    ensures { Put (bits_of j first ++ bits_of k second) w out.old out.new result }
{
    let between = w.put_bits(first, j, out);
    between.put_bits(second, k, out)
}

fn put_mark_record(tail: u8, head: u8, mark: u8, w: BitWriter, out: &mut [u8]) -> BitWriter
    requires { Ready (length (record_bits (old_mark tail head mark))) w out.old }
    ensures { Put (record_bits (old_mark tail head mark)) w out.old out.new result }
{
    let between = put_two(MARK_KIND, KIND_WIDTH, tail as u32, VERTEX_WIDTH, w, out);
    put_two(
        head as u32,
        VERTEX_WIDTH,
        mark as u32,
        MARK_WIDTH,
        between,
        out,
    )
}

fn put_budget_record(budget: u32, w: BitWriter, out: &mut [u8]) -> BitWriter
    requires { Ready (length (record_bits (old_budget budget))) w out.old }
    ensures { Put (record_bits (old_budget budget)) w out.old out.new result }
{
    put_two(BUDGET_KIND, KIND_WIDTH, budget, BUDGET_WIDTH, w, out)
}

fn put_marks_record(tail: u8, heads: u32, marks: u64, w: BitWriter, out: &mut [u8]) -> BitWriter
    requires { Ready (length (record_bits (old_marks tail heads (record_marks heads marks)))) w out.old }
    ensures { Put (record_bits (old_marks tail heads (record_marks heads marks))) w out.old out.new result }
{
    let after_tail = put_two(MARKS_KIND, KIND_WIDTH, tail as u32, VERTEX_WIDTH, w, out);
    let after_heads = after_tail.put_bits(heads, HEADS_WIDTH, out);
    put_marks(heads, marks, after_heads, out)
}

fn put_record(replaced: Replaced, w: BitWriter, out: &mut [u8]) -> BitWriter
    requires { Ready (length (record_bits (replaced_of replaced))) w out.old }
    ensures { Put (record_bits (replaced_of replaced)) w out.old out.new result }
{
    match replaced {
        Replaced::OldMark(tail, head, mark) => put_mark_record(tail, head, mark, w, out),
        Replaced::OldBudget(budget) => put_budget_record(budget, w, out),
        Replaced::OldMarks(tail, heads, marks) => put_marks_record(tail, heads, marks, w, out),
    }
}

// The records, the oldest first.
pub fn put_records(records: &[UndoRecord], start: BitWriter, out: &mut [u8]) -> BitWriter
    requires { Ready (length (records_bits (history_of (length records.now) records.now))) start out.old }
    ensures { Put (records_bits (history_of (length records.now) records.now)) start out.old out.new result }
{
    let mut w = start;
    for record in records {
        w = put_record(record.replaced, w, out);
    }
    w
}
