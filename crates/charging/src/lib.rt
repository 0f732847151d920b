// Charging a group of vertices (Algorithm 1 of document 000): its cheapest entering arc, the entering arcs lowered by
// that weight, and the cut that this gives.
#![tactic(auto)]

pub mod charge; // charge.rt: a group charged for its cheapest arc, with the cut that proves it
mod entering; // entering.rt: the cheapest arc into a group
mod lower; // lower.rt: the arcs into a group, lowered
mod members; // members.rt: the vertices of a group as a set
