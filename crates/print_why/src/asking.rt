// What the planner answers of a card. Each question opens the card again: the card is shorter than its board, so that
// the stack holds no board but the one that a call is lent.
ghost use Rattle.std.specs.Prelude.{◌≤◌};
ghost use Rattle.instance.specs.Limits.{max_cuts};
ghost use Rattle.print_why.specs.Answers.{reason_pairs, view_pairs};

use instance::Vertex;
use planner::{Reason, View, open_card, plan_without, why};

// Why, for the arc from tail to head; parents and cuts take the plan with it.
pub fn explain_card(
    card: &[u8],
    tail: u32,
    head: u32,
    parents: &mut [u8],
    cuts: &mut [u32],
) -> Reason
    ensures { reason_pairs result ≤ max_cuts }
{
    match open_card(card) {
        Ok(board) => why(&board, Vertex(tail), Vertex(head), parents, cuts),
        Err(refusal) => Reason::Refused(u32::from(refusal)),
    }
}

// The plan without it.
pub fn plan_card_without(
    card: &[u8],
    tail: u32,
    head: u32,
    parents: &mut [u8],
    cuts: &mut [u32],
) -> View
    ensures { view_pairs result ≤ max_cuts }
{
    match open_card(card) {
        Ok(board) => plan_without(&board, Vertex(tail), Vertex(head), parents, cuts),
        Err(refusal) => View::Refused(u32::from(refusal)),
    }
}

// How many presses are recorded on the card; none on one that is refused.
pub fn record_count(card: &[u8]) -> u32 {
    match open_card(card) {
        Ok(board) => board.count as u32,
        Err(_) => 0,
    }
}
