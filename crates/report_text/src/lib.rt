// The text that the planner prints, written into a caller's buffer.
//
// As in the crate `text`, a function `put_..` writes one piece from the place `at` on and returns the place after it;
// it requires that there is room.
#![tactic(auto)]

mod feeds; // feeds.rt: the feed lines
mod heading; // heading.rt: the first two lines
mod rows; // rows.rt: the rows of states
mod whole; // whole.rt: the whole text

pub use feeds::{listed_weight, put_feed, shows_tree};
pub use heading::put_header;
pub use whole::{MAX_TEXT, write_refusal, write_report};
