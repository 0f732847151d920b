// History cards: boards written as such and opened again; damaged ones, and ones with a bad record; cards moved from
// one kind to the other; the longest card. Lists of calls that begin on such cards are in test_calls and test_lists.
#![tactic(auto)]

mod bad_records; // bad_records.rt: cards with one bad record
mod changed; // changed.rt: cards with bits changed, cut or continued
mod compared; // compared.rt: whether what a call gave is right
mod damaged; // damaged.rt: history cards damaged in every way
mod longest; // longest.rt: the longest card
mod moves; // moves.rt: cards moved from one kind to the other
mod samples; // samples.rt: random instances with records
mod written; // written.rt: boards with records, written and opened again

fn main() {
    written::all();
    damaged::all();
    bad_records::all();
    moves::all();
    longest::all();
}
