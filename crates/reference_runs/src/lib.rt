// Passive runs, written from document 02, A11, alone and in the plainest way, with no crate of the product: what a call
// has to answer, and what it has to show. A graph comes as the document's two lists; a cell names a pair of vertices by
// row and column. Small graphs have all their spanning trees listed; large ones are planned by Kruskal's algorithm, a
// run pinned to learn the least total with it and banned to learn the least total without it.
#![tactic(auto)]

pub mod answers; // answers.rt: the document's numbers, and the refusal of two lists
pub mod choice; // choice.rt: edges chosen one by one, and whether they are a spanning tree that respects the marks
pub mod costs; // costs.rt: states and replacement costs, by the least totals with and without each run
pub mod kruskal; // kruskal.rt: the least total of a graph of up to 32 vertices
pub mod listing; // listing.rt: all sets of runs of a graph of up to 5 vertices
pub mod places; // places.rt: reads that ask nothing of their caller, and where a cell stands
