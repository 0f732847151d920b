// The lines that a listing of all plans is printed by (02, A7), put into a caller's buffer.
//
// As in the crate `text`, a function `put_..` writes one piece from the place `at` on and returns the place after it;
// it requires that there is room. There are as many lines as trees, so no buffer is made for all of them: one of
// MAX_LINE bytes has room for the first two lines together, and for each line of a tree.
#![tactic(auto)]

mod heading; // heading.rt: the first two lines
mod trees; // trees.rt: the line of a tree

pub use heading::put_heading;
pub use trees::{MAX_LINE, put_tree};
