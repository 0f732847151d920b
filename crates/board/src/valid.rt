// Whether a board is valid: every field in its range, no mark where there is no arc, at most 200 records, and each of
// them restoring a budget in range, or marks in range on one arc or more and on nothing else (document 01, refusal 15;
// 02, A5).
ghost use Rattle.std.specs.Prelude.{◌≡◌, ◌≤◌, length};
ghost use Rattle.base.specs.Lists.{all_of};
ghost use Rattle.instance.specs.Limits.{max_vertices, cells, max_records};
ghost use Rattle.instance.specs.Instance.{instance_with};
ghost use Rattle.instance.specs.Matrix.{unmarked};
ghost use Rattle.commands.specs.Valid.{record_ok, valid};
ghost use Rattle.board.specs.ModelOf.{replaced_of, history_of, model_of};

use crate::{Board, Replaced, UndoRecord};
use checks::arc::is_arc;
use checks::valid::{cells_valid, header_valid};
use heads::arcs::are_heads_ok;
use instance::limits::{BANNED, CELLS, MAX_BUDGET, MAX_RECORDS};

// Whether a record may stand in the history of a board.
pub fn record_ok(weights: &[u32; CELLS], n: u32, root: u32, replaced: Replaced) -> bool
    requires { (n ≤ max_vertices) × (length weights.now ≡ cells) }
    ensures { result ≡ record_ok (unmarked n root weights.now) (replaced_of replaced) }
{
    match replaced {
        Replaced::OldMark(tail, head, mark) => {
            if is_arc(weights, n, root, tail as u32, head as u32) {
                mark <= BANNED
            } else {
                false
            }
        }
        Replaced::OldBudget(budget) => budget <= MAX_BUDGET,
        Replaced::OldMarks(tail, heads, old) => {
            are_heads_ok(weights, n, root, tail as u32, heads, old)
        }
    }
}

fn records_valid(b: &Board) -> bool
    requires { (b.now.n ≤ max_vertices) × (b.now.count ≤ max_records) }
    ensures { result ≡ all_of (record_ok (unmarked b.now.n b.now.root b.now.weights)) (model_of b.now).history }
{
    for e in &b.records[..b.count] {
        if !record_ok(&b.weights, b.n, b.root, e.replaced) {
            return false;
        }
    }
    true
}

// What may be judged depends on what was judged before: cells on n and root, records on n and the count.
pub fn is_valid(b: &Board) -> bool
    ensures { result ≡ valid (model_of b.now) }
{
    if !header_valid(b.n, b.root, b.budget) {
        return false;
    }
    if !cells_valid(&b.weights, &b.marks, b.n, b.root) {
        return false;
    }
    if MAX_RECORDS < b.count {
        return false;
    }
    records_valid(b)
}
