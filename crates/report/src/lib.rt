// From a card to the text that the planner prints of it.
#![tactic(auto)]

mod reports; // reports.rt: a card opened, looked at and printed

pub use history_card::MAX_HISTORY_CARD;
pub use report_text::MAX_TEXT;
pub use reports::report;

// What was reported: 0, the number of the card's refusal, or 14 for a buffer that is too short; and how long the text
// is.
#[derive(Clone, Copy)]
pub struct Reported {
    pub answer: u32,
    pub length: usize,
}
