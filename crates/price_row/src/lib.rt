// The school's own prices first (02, A12): of two lists of prices, the school's and the shipped one, the row that is
// used for a tail.
#![tactic(auto)]

pub mod row; // row.rt: the public call

pub use row::row_used;
