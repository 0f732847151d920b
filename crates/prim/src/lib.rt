// A cheapest spanning tree of a graph that keeps its pins and bans, by Prim's algorithm: pinned edges first.
#![tactic(auto)]

pub mod place; // place.rt: places of a list, with their rows and columns
pub mod keys; // keys.rt: the keys of a graph, in a table
pub mod growth; // growth.rt: the tree, grown edge by edge
pub mod tree; // tree.rt: the tree with its pins, and its total
