// Whether the fields of an instance are valid: the header's, and every cell where an arc can be.
ghost use Rattle.std.specs.Prelude.{◌≡◌, ◌<◌, length};
ghost use Rattle.base.specs.Bounded.{all_below};
ghost use Rattle.instance.specs.Limits.{cells};
ghost use Rattle.instance.specs.Instance.{without_budget};
ghost use Rattle.instance.specs.Valid.{cell_ok, cell_valid, header_valid};

use crate::arc::can_be_arc;
use instance::limits::{BANNED, CELLS, FREE, MAX_BUDGET, MAX_VERTICES, MAX_WEIGHT, NO_ARC};

// A weight and a mark that a cell may hold.
// One test after the other: as one expression both are judged for every cell, and to judge a list of passive runs took
// 1.3 of the instructions.
pub fn cell_ok(weight: u32, mark: u8) -> bool
    ensures { result ≡ cell_ok weight mark }
{
    if weight <= MAX_WEIGHT {
        return mark <= BANNED;
    }
    if weight == NO_ARC {
        return mark == FREE;
    }
    false
}

fn cell_valid<'a>(
    weights: &'a [u32; CELLS],
    marks: &'a [u8; CELLS],
    n: u32,
    root: u32,
    i: usize,
) -> bool
    requires i_lt_cells { i < cells }
    requires weights_len { (length weights.now ≡ cells) × (length marks.now ≡ cells) }
    ensures { result ≡ cell_valid (without_budget n root weights.now marks.now) i }
{
    !can_be_arc(n, root, (i / 32) as u32, (i % 32) as u32) || cell_ok(weights[i], marks[i])
}

// Every cell where an arc can be; the others are never looked at.
pub fn cells_valid<'a>(weights: &'a [u32; CELLS], marks: &'a [u8; CELLS], n: u32, root: u32) -> bool
    requires { (length weights.now ≡ cells) × (length marks.now ≡ cells) }
    ensures { result ≡ all_below cells (cell_valid (without_budget n root weights.now marks.now)) }
{
    for k in (0..CELLS).rev() {
        if !cell_valid(weights, marks, n, root, k) {
            return false;
        }
    }
    true
}

// The number of vertices, the root and the budget.
pub fn header_valid(n: u32, root: u32, budget: u32) -> bool
    ensures { result ≡ header_valid n root budget }
{
    if n < 1 || MAX_VERTICES < n {
        return false;
    }
    root < n && budget <= MAX_BUDGET
}
