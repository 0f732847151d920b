// Tables of the weights of the remaining arcs (reference::problem::costs), with fewer of them.
use reference::problem;
use reference::problem::{ABSENT, CELLS, MAX_VERTICES};

// "the sheet with this link as the only one into its position": its trees are those that use the link.
pub fn with_only(table: &[u32; CELLS], tail: u32, head: u32) -> [u32; CELLS] {
    let mut left = *table;
    for other in 0..MAX_VERTICES {
        if other != tail {
            left[problem::cell(other, head)] = ABSENT;
        }
    }
    left
}

// "the sheet with this link taken out": its trees are those that do not use the link. Without a pinned one there is
// none, as its pin keeps the others out.
pub fn without(table: &[u32; CELLS], tail: u32, head: u32) -> [u32; CELLS] {
    let mut left = *table;
    left[problem::cell(tail, head)] = ABSENT;
    left
}
