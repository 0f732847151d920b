// Calls: random lists of them against the log, one by one and handed over whole; group presses against single ones, and
// taken back; the same presses in another order; calls on damaged boards; on damaged cards.
#![tactic(auto)]

mod boards; // boards.rt: damaged boards
mod cards; // cards.rt: random and damaged cards
mod groups; // groups.rt: group presses against single ones
mod lists; // lists.rt: lists of calls
mod orders; // orders.rt: the same presses in another order
mod replays; // replays.rt: lists of calls handed over whole
mod restores; // restores.rt: records of group presses taken back
mod singles; // singles.rt: single presses on the members of a group

fn main() {
    lists::all();
    replays::all();
    groups::all();
    restores::all();
    orders::all();
    boards::all();
    cards::all();
}
