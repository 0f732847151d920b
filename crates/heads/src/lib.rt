// Several arcs of one tail (02, A5), their heads as a set of vertices: which of them there are, by the weights, and
// their marks, read as a number of two bits a head and put from one. Apart from the board, which hands in its lists.
#![tactic(auto)]

pub mod arcs; // arcs.rt: the arcs to a set of heads, and those of a record
pub mod marks; // marks.rt: their marks, read and put
