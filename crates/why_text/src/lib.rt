// The lines that say why a link is closed, open or sure, written into a caller's buffer.
//
// As in the crate `text`, a function `put_..` writes one piece from the place `at` on and returns the place after it;
// it requires that there is room. One buffer of MAX_LINE bytes has room for each line (proofs/LengthLaws.antt), so that
// none is made for all of them.
#![tactic(auto)]

mod cut; // cut.rt: the line of a cut
mod endings; // endings.rt: how a first line ends: who set a mark, and what the budget is
mod grouped; // grouped.rt: numbers with commas
mod lines; // lines.rt: every line
mod verdict; // verdict.rt: which line comes first

pub use lines::{Line, MAX_LINE, write_line};
pub use verdict::{first_line, outcome_total};
