// Passive runs (02, A11): a cheapest spanning tree of an undirected graph, the states of its edges and the replacement
// costs of the tree's. What they mean is defined in `spanning`.
#![tactic(auto)]

mod refusal; // refusal.rt: the refusals
mod tables; // tables.rt: who is below whom in a tree, and what lies between any two vertices
mod replacement; // replacement.rt: what the edges of a tree cost to replace
mod show; // show.rt: the states and the costs, into the caller's buffers
mod planning; // planning.rt: the public call

pub use planning::plan_runs;
