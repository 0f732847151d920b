// What stands behind the bits of the card: the count, the records and the filling.
ghost use Rattle.std.specs.Prelude.{◌≡◌, ◌+◌, ◌*◌, ◌≤◌, length, drop};
ghost use Rattle.bits.specs.Bits.{bits_in};
ghost use Rattle.instance.specs.Limits.{max_vertices, max_records, cells};
ghost use Rattle.instance.specs.RefusalNumbers.{answer_of};
ghost use Rattle.instance.specs.Matrix.{unmarked};
ghost use Rattle.history_format.specs.HistoryCard.{end_refusal, records_refusal, max_history_card};
ghost use Rattle.history_card.specs.Marks.{last_place};
ghost use Rattle.history_card.specs.Records.{CountRead, RecordsRead};

use crate::record::{read_record, runs_past};
use crate::widths::COUNT_WIDTH;
use board::{Replaced, UndoRecord};
use instance::limits::{CELLS, MAX_RECORDS};
use instance::refusals::Refusal;

// How many records there are: it stands behind the bits of the card, which end at `start`.
pub fn read_count(card: &[u8], start: usize) -> Result<usize, Refusal>
    requires { start ≤ last_place }
    ensures { CountRead (drop start (bits_in card.now)) result }
{
    if runs_past(card, start + COUNT_WIDTH) {
        return Err(Refusal::BadLength);
    }
    let count = bits::read_bits(card, start, COUNT_WIDTH) as usize;
    if MAX_RECORDS < count {
        return Err(Refusal::BadRecord);
    }
    Ok(count)
}

// The last record ends at `end`: whole bytes may not follow, nor a bit that is not zero.
fn check_end(card: &[u8], end: usize) -> Result<(), Refusal>
    requires { (end ≤ 8 * length card.now) × (end ≤ last_place) }
    ensures { answer_of result ≡ end_refusal (drop end (bits_in card.now)) }
{
    let bytes = (end + 7) / 8;
    if bytes < card.len() {
        return Err(Refusal::BadLength);
    }
    if bits::read_bits(card, end, 8 * bytes - end) != 0 {
        return Err(Refusal::BadFilling);
    }
    Ok(())
}

// So many records from `start` on, and the places after them blank; or the refusal of the first faulty one, or of what
// follows the last.
pub fn read_records(
    card: &[u8],
    weights: &[u32; CELLS],
    n: u32,
    root: u32,
    start: usize,
    count: usize,
) -> Result<[UndoRecord; MAX_RECORDS], Refusal>
    requires n_le_max_vertices { (n ≤ max_vertices) × (length weights.now ≡ cells) × (start ≤ 8 * length card.now) }
    requires start_bound { (start ≤ 8 * max_history_card) × (count ≤ max_records) }
    ensures { RecordsRead (records_refusal count (unmarked n root weights.now) (drop start (bits_in card.now))) count (drop start (bits_in card.now)) result }
{
    let blank = UndoRecord {
        replaced: Replaced::OldMark(0, 0, 0),
    };
    let mut records = [blank; MAX_RECORDS];
    let mut at = start;
    for k in 0..count {
        let read = read_record(card, weights, n, root, at)?;
        records[k] = UndoRecord {
            replaced: read.replaced,
        };
        at = read.next;
    }
    check_end(card, at)?;
    Ok(records)
}
