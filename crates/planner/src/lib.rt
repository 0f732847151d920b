// The public calls, gathered here: open_card, pin, ban, clear, pin_group, ban_group, clear_group, set_budget,
// take_back, press_list, look, write_card, write_history_card, to_history_card, to_plain_card, check_plan, list_plans,
// why, plan_without, plan_runs, read_prices, write_prices, row_used and replay. None requires anything of its caller:
// whatever is handed in gets an answer, and after a refusal the board and all buffers are as they were, but for the
// word that takes row_used's number; of a list of presses that is said of the refused press, and what the earlier ones
// did stands.
#![tactic(auto)]

mod checking; // checking.rt: a plan made elsewhere, checked for a board
mod displaying; // displaying.rt: what planning found, copied there
mod enumerating; // enumerating.rt: all plans of a board
mod explaining; // explaining.rt: why a link is closed, open or sure
mod looking; // looking.rt: a look at a board
mod moving; // moving.rt: a card moved from one kind to the other
mod opening; // opening.rt: a board from a card
pub mod replaying; // replaying.rt: a list of calls, one after the other; and what a kind of call stands for
mod writing; // writing.rt: a board written as a card

pub use board::calls::{ban, ban_group, clear, clear_group, pin, pin_group, set_budget, take_back};
pub use board::{Answered, Board, Command};
pub use card::MAX_CARD;
pub use checking::check_plan;
pub use command_list::{Applied, Press, press_list};
pub use enumerating::list_plans;
pub use enumeration::Ended;
pub use explaining::{plan_without, why};
pub use history_card::MAX_HISTORY_CARD;
pub use instance::refusals::Refusal;
pub use instance::{Mark, Outcome, Vertex};
pub use looking::look;
pub use moving::{to_history_card, to_plain_card};
pub use opening::open_card;
pub use price_list::{Refused, read_prices, write_prices};
pub use price_row::row_used;
pub use replaying::replay;
pub use runs::plan_runs;
pub use writing::{write_card, write_history_card};

// What a look shows: the outcome and the number of cuts that prove it, or of the one pair that shows that there is no
// tree; or the number of a refusal.
#[derive(Clone, Copy)]
pub enum View {
    Shown(Outcome, u32),
    Refused(u32),
}

// Why a link is closed, or what decides that: it is banned, by the recorded press at this place, from 1 at the oldest,
// or by none of them, 0, and so by the card; the link from this position into the same one is pinned, by whom in the
// same way; the outcome with the link as the only one into its position, and the number of cuts that prove it, or of
// the one pair that shows that there is no tree; or the number of a refusal.
#[derive(Clone, Copy)]
pub enum Reason {
    Banned(u32),
    Rival(Vertex, u32),
    Priced(Outcome, u32),
    Refused(u32),
}

// What a listing of all plans gives: how it ended, how many trees stand in the buffer and how many tries were made.
#[derive(Clone, Copy)]
pub struct Listing {
    pub ended: Ended,
    pub trees: u32,
    pub tries: u32,
}
