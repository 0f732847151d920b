// Lists every arborescence of an instance within its budget, by backtracking: the vertices get their parents upwards,
// each remaining arc into the next one is tried in turn, and an arc that closes a cycle is dropped. No card and no
// board can be seen from here.
#![tactic(auto)]

mod cycle; // cycle.rt: whether an arc closes a cycle
mod store; // store.rt: a tree put into the caller's buffer
mod walk; // walk.rt: the walk, two functions that call each other

ghost use Rattle.std.specs.Prelude.{◌≡◌, true, ◌≤◌};
ghost use Rattle.instance.specs.Limits.{max_tries};
ghost use Rattle.instance.specs.Instance.{instance_with};
ghost use Rattle.instance.specs.Valid.{valid_instance};
ghost use Rattle.backtracking.specs.Listing.{ListsTrees};

use enumeration::Ended;
use instance::limits::{CELLS, NO_PARENT, VERTICES};
use remaining::remaining_matrix;
use walk::settle;

// How far a walk is: the tries that are left, the trees in the buffer, and what ended it, if anything did.
#[derive(Clone, Copy)]
pub struct Progress {
    pub left: u32,
    pub trees: u32,
    pub ended: Ended,
}

// Lists the trees of a valid instance, with so many tries at most: n bytes a tree, one after the other, as far as there
// is room.
pub fn list_trees<'a>(
    weights: &'a [u32; CELLS],
    marks: &'a [u8; CELLS],
    n: u32,
    root: u32,
    budget: u32,
    limit: u32,
    out: &mut [u8],
) -> Progress
    requires { (valid_instance (instance_with n root budget weights.now marks.now) ≡ true) × (limit ≤ max_tries) }
    ensures { ListsTrees (instance_with n root budget weights.now marks.now) limit out.old out.new result }
{
    let m = remaining_matrix(weights, marks, n, root);
    let start = Progress {
        left: limit,
        trees: 0,
        ended: Ended::Complete,
    };
    settle(&m, [NO_PARENT; VERTICES], n, root, budget, 0, 0, start, out)
}
