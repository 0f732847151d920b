// The reference that the test programs hold the planner to: written from documents 01 and 02 alone, in the plainest
// way, with none of the planner's code or methods. The programs' own needs stand beside it: random numbers, counts,
// scripts.
#![tactic(auto)]

pub mod access; // access.rt: small steps that ask nothing of their caller
pub mod call; // call.rt: calls that change a board, and random ones
pub mod card; // card.rt: cards, bit by bit
pub mod certificate; // certificate.rt: plans made elsewhere, and the answers to them
pub mod dual; // dual.rt: a planner of another kind
pub mod families; // families.rt: instances of 32 vertices
pub mod fields; // fields.rt: bits of a card, and fields of several bits
pub mod group; // group.rt: group presses, one feeder and a set of fed positions
pub mod history; // history.rt: recorded presses, and what is restored by taking them back
pub mod history_card; // history_card.rt: history cards, bit by bit
pub mod history_sample; // history_sample.rt: random recorded presses, sound and bad
pub mod log; // log.rt: the log of document 01, "The book for demand 3"
pub mod moves; // moves.rt: cards moved from one kind to the other
pub mod outcome; // outcome.rt: what a look has to show, from the listing
pub mod problem; // problem.rt: instances, and the arcs that remain
pub mod random; // random.rt: numbers that look random
pub mod refusals; // refusals.rt: the documents' refusals
pub mod sample; // sample.rt: random instances
pub mod script; // script.rt: lines of a program's standard input
pub mod shown; // shown.rt: the documents' conditions on a shown tree and cuts
pub mod tally; // tally.rt: what a program counts and prints
pub mod trees; // trees.rt: all trees of a small instance
pub mod walk; // walk.rt: the walk that lists all plans, with its limit and its room
pub mod worked; // worked.rt: document 01's worked instances
