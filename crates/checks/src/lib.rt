// The checks of an instance's fields: where an arc can be and where one is, whether all fields are in range, and sets
// of its vertices. Apart from `instance`, whose must-fail edits are many: each proves its crate again, and needs no
// program for that.
#![tactic(auto)]

pub mod arc; // arc.rt: where an arc can be, and where one is
pub mod sets; // sets.rt: sets of vertices as the bits of a number
pub mod valid; // valid.rt: whether the fields of an instance are in range
