// The row of prices that is used for a tail: that of the school's own list if it has any price, or else that of the
// shipped list. It is handed back as a part of the list that it stands in, and the contract says where that part
// begins.
ghost use Rattle.std.specs.Prelude.{◌≡◌, ◌*◌, ◌≤◌, ◌<◌, length};
ghost use Rattle.instance.specs.Limits.{max_vertices};
ghost use Rattle.price_row.specs.Row.{has_price, chosen_row, room_refusal, row_ok, chosen_address, UsesRow};

use checks::valid::cell_ok;
use instance::Vertex;
use instance::limits::{FREE, MAX_VERTICES, NO_ARC};
use instance::refusals::{BUFFER_SHORT, COUNT_OUT_OF_RANGE, NO_VERTEX, OUT_OF_RANGE};

// Whether a number of the row is not "no link".
pub fn has_price(row: &[u32]) -> bool
    ensures { result ≡ has_price row.now }
{
    for w in row {
        if *w != NO_ARC {
            return true;
        }
    }
    false
}

// Whether every number of the row is a price or "no link", which is what a cell without a mark may hold.
fn row_ok(row: &[u32]) -> bool
    ensures { result ≡ row_ok row.now }
{
    for w in row {
        if !cell_ok(*w, FREE) {
            return false;
        }
    }
    true
}

// The refusals that look at no price; of the two lists the lengths are enough.
fn room_answer(n: u32, tail: u32, school: usize, shipped: usize) -> u32
    ensures { result ≡ room_refusal n tail school shipped }
{
    if n == 0 {
        return COUNT_OUT_OF_RANGE;
    }
    if MAX_VERTICES < n {
        return COUNT_OUT_OF_RANGE;
    }
    if n <= tail {
        return NO_VERTEX;
    }
    let size = (n * n) as usize;
    if school < size {
        return BUFFER_SHORT;
    }
    if shipped < size {
        return BUFFER_SHORT;
    }
    0
}

// One lifetime for both lists, since the row may stand in either.
fn chosen_row<'a>(school: &'a [u32], shipped: &'a [u32], n: u32, tail: u32) -> &'a [u32]
    requires { (n ≤ max_vertices) × (tail < n) × (n * n ≤ length school.now) × (n * n ≤ length shipped.now) }
    ensures { (result.now ≡ chosen_row n tail school.now shipped.now)
        × (result.ref_ptr ≡ chosen_address n tail school.now school.entry.ref_ptr shipped.entry.ref_ptr) }
{
    let start = (tail * n) as usize;
    let end = start + n as usize;
    let own = &school[start..end];
    if has_price(own) {
        return own;
    }
    &shipped[start..end]
}

// The number goes into `answer`, and 0 with a row. No `Result`: 02 has a refusal hand back a part too, the empty one at
// the start of the shipped list (A12).
pub fn row_used<'a>(
    school: &'a [u32],
    shipped: &'a [u32],
    count: u32,
    tail: Vertex,
    answer: &mut u32,
) -> &'a [u32]
    ensures { UsesRow school.now shipped.now school.entry.ref_ptr shipped.entry.ref_ptr
        count tail.0 answer.new result.now result.ref_ptr }
{
    let vertex = tail.0;
    let refusal = room_answer(count, vertex, school.len(), shipped.len());
    if refusal != 0 {
        *answer = refusal;
        return &shipped[0..0];
    }
    let row = chosen_row(school, shipped, count, vertex);
    if row_ok(row) {
        *answer = 0;
        return row;
    }
    *answer = OUT_OF_RANGE;
    &shipped[0..0]
}
