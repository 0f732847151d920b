// Who set an arc's mark: the latest record that names it, told by its place.
ghost use Rattle.std.specs.Prelude.{◌≡◌, ◌≤◌, ◌<◌};
ghost use Rattle.instance.specs.Limits.{max_vertices, max_records};
ghost use Rattle.commands.specs.Setters.{record_names as names_arc, setter as setter-in};
ghost use Rattle.board.specs.ModelOf.{replaced_of, model_of};

use crate::{Board, Replaced};
use checks::sets::is_inside;

// Whether a record restores the mark of the arc.
fn record_names(replaced: Replaced, tail: u32, head: u32) -> bool
    requires { head < max_vertices }
    ensures { result ≡ names_arc tail head (replaced_of replaced) }
{
    match replaced {
        Replaced::OldMark(own_tail, own_head, _) => {
            if tail != own_tail as u32 {
                return false;
            }
            head == own_head as u32
        }
        Replaced::OldBudget(_) => false,
        Replaced::OldMarks(own_tail, heads, _) => {
            if tail != own_tail as u32 {
                return false;
            }
            is_inside(heads, head)
        }
    }
}

// The place of the latest record that names the arc, from 1 at the oldest; 0 where none does, the number that the words
// of the C interface have for it.
pub fn setter(b: &Board, tail: u32, head: u32) -> u32
    requires { (b.now.count ≤ max_records) × (head < max_vertices) }
    ensures { result ≡ setter-in (model_of b.now).history tail head }
{
    for k in (0..b.count).rev() {
        if record_names(b.records[k].replaced, tail, head) {
            return k as u32 + 1;
        }
    }
    0
}
