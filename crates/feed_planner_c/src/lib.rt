// The library for C and Rust (include/feed_planner.h): each function passes on what it is lent to the one of its name
// in `feed_planner`, and promises what that one promises, in the same words.
#![tactic(auto)]

mod cards; // cards.rt: a card judged, written and moved from one kind to the other
mod sheets; // sheets.rt: what a card says
mod presses; // presses.rt: a press on a card, and the card after it
mod press_lists; // press_lists.rt: a prepared list of presses
mod looking; // looking.rt: a look at a card, its printed text, a list of calls with a look at the end
mod reasons; // reasons.rt: why a link is closed, open or sure, and the plan without it
mod plans; // plans.rt: a plan made elsewhere, checked; all plans
mod prices; // prices.rt: price lists, read, written, merged, and as cards
mod rows; // rows.rt: the row of prices that is used
mod passive_runs; // passive_runs.rt: passive runs
