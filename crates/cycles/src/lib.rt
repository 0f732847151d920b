// Cycles of chosen arcs: the first one that the search meets, and its groups contracted to one.
#![tactic(auto)]

pub mod contract; // contract.rt: a cycle's groups become one
pub mod cycle; // cycle.rt: the first cycle of chosen arcs
pub mod groups; // groups.rt: the groups at a level of contraction
