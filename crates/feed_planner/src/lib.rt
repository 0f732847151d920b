// The planner as a library over cards: functions over cards and buffers of the caller's, which `feed_planner_c` exports
// to C and Rust (include/feed_planner.h). The card with records is the state: a press takes a card and writes the next
// one, so there is no handle, no global and no allocation. Every function has the contract of the call that it passes
// on, said of cards, and none requires anything; refused, all that was lent is as it was, but for the words that say
// which line of which price list is faulty.
#![tactic(auto)]

mod words; // words.rt: second results, into the caller's words
mod cards; // cards.rt: a card judged, written and moved from one kind to the other
mod sheets; // sheets.rt: what a card says
mod presses; // presses.rt: a press on a card, and the card after it
mod press_lists; // press_lists.rt: a prepared list of presses
mod looking; // looking.rt: a look at a card, its printed text, a list of calls with a look at the end
mod reasons; // reasons.rt: why a link is closed, open or sure, and the plan without it
mod plans; // plans.rt: a plan made elsewhere, checked; all plans
mod prices; // prices.rt: price lists, read, written, merged, and as cards
mod rows; // rows.rt: the row of prices that is used
mod passive_runs; // passive_runs.rt: passive runs

pub use cards::{feed_judge, feed_to_history_card, feed_to_plain_card, feed_write_card};
pub use looking::{feed_look, feed_print, feed_replay};
pub use passive_runs::feed_plan_runs;
pub use plans::{feed_check_plan, feed_list_plans};
pub use press_lists::feed_press_list;
pub use presses::{
    feed_ban, feed_ban_group, feed_clear, feed_clear_group, feed_pin, feed_pin_group,
    feed_set_budget, feed_take_back,
};
pub use prices::{
    feed_card_from_prices, feed_merge_lists, feed_prices_from_card, feed_read_prices,
    feed_write_prices,
};
pub use reasons::{feed_plan_without, feed_why};
pub use rows::feed_row_used;
pub use sheets::feed_sheet;
