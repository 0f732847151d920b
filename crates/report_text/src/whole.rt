// The whole text.
ghost use Rattle.std.specs.Prelude.{◌≡◌, ◌*◌, ◌≤◌, length};
ghost use Rattle.instance.specs.Limits.{max_vertices, cells};
ghost use Rattle.text.specs.Buffer.{Filled};
ghost use Rattle.report_text.specs.Whole.{whole_text, refused_text};

use crate::feeds::put_feeds;
use crate::heading::{put_header, put_outcome};
use crate::rows::put_rows;
use instance::Outcome;
use instance::limits::CELLS;
use text::lines::put_line;

// The longest text of a valid instance (`report_length` and `longest` in proofs/): 32 vertices, and every number as
// long as it can be.
pub const MAX_TEXT: usize = 2241;

// Writes the text from the buffer's beginning on and returns its length; the bytes after it keep their contents.
//
// weights: the instance's, a cell for each tail and head. parents: those of the tree that is shown, at least n; looked
// at only where the outcome shows a tree. states: n times n at least, tail by tail. n, root, budget, outcome: the
// instance's. out: where the text goes.
pub fn write_report(
    weights: &[u32; CELLS],
    parents: &[u8],
    states: &[u8],
    n: u32,
    root: u32,
    budget: u32,
    outcome: Outcome,
    out: &mut [u8],
) -> usize
    requires weights_len { length weights.now ≡ cells }
    requires n_le_max_vertices { n ≤ max_vertices }
    requires n_in_bounds { n ≤ length parents.now }
    requires n_in_bounds_2 { n * n ≤ length states.now }
    requires outcome_in_bounds { length (whole_text weights.now parents.now states.now n root budget outcome) ≤ length out.old }
    ensures { Filled (whole_text weights.now parents.now states.now n root budget outcome) out.old out.new result }
{
    let outcome_at = put_header(n, root, budget, out, 0);
    let feeds_at = put_outcome(outcome, out, outcome_at);
    let rows_at = put_feeds(weights, parents, n, root, outcome, out, feeds_at);
    put_rows(states, n, out, rows_at)
}

// The line of a refused card, by the refusal's number.
pub fn write_refusal(answer: u32, out: &mut [u8]) -> usize
    requires { length (refused_text answer) ≤ length out.old }
    ensures { Filled (refused_text answer) out.old out.new result }
{
    put_line(b"refused ", answer, out, 0)
}
