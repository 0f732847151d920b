// Two price lists as text merged: the school's own and the shipped one, into the list of the rows that are used.
#![tactic(auto)]

mod merge; // merge.rt: the call
mod rows; // rows.rt: the rows that are used, one behind the other

pub use merge::{MergeRefused, merge_lists};
