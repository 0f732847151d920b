// Why a link of a card is closed, open or sure, and the plan without it.
ghost use Rattle.planner.specs.Explaining.{tree_buffers};
ghost use Rattle.feed_planner.specs.Words.{words, words_with};
ghost use Rattle.feed_planner.specs.Reasons.{ExplainsCard, PlansWithoutCard};

use crate::words::{keep_reason, keep_view};
use instance::Vertex;
use planner::{open_card, plan_without, why};

// The buffers take what `why` puts into them, and the words the reason with all that it tells.
pub fn feed_why(
    card: &[u8],
    tail: u32,
    head: u32,
    parents: &mut [u8],
    cuts: &mut [u32],
    reason: &mut u32,
    setter: &mut u32, // takes who set the mark
    rival: &mut u32, // takes the rival's tail
    kind: &mut u32,
    total: &mut u32,
    pairs: &mut u32,
) -> u32
    ensures { ExplainsCard card.now tail head (tree_buffers parents.old cuts.old) (tree_buffers parents.new cuts.new)
        (words_with reason.old setter.old rival.entry.now (words kind.entry.now total.old pairs.old))
        (words_with reason.new setter.new rival.exit.now (words kind.exit.now total.new pairs.new)) result }
{
    let b = match open_card(card) {
        Ok(board) => board,
        Err(refusal) => return u32::from(refusal),
    };
    let found = why(&b, Vertex(tail), Vertex(head), parents, cuts);
    keep_reason(found, reason, setter, rival, kind, total, pairs)
}

// The three words are those of a look.
pub fn feed_plan_without(
    card: &[u8],
    tail: u32,
    head: u32,
    parents: &mut [u8],
    cuts: &mut [u32],
    kind: &mut u32,
    total: &mut u32,
    pairs: &mut u32,
) -> u32
    ensures { PlansWithoutCard card.now tail head (tree_buffers parents.old cuts.old) (tree_buffers parents.new cuts.new)
        (words kind.old total.old pairs.old) (words kind.new total.new pairs.new) result }
{
    let b = match open_card(card) {
        Ok(board) => board,
        Err(refusal) => return u32::from(refusal),
    };
    let view = plan_without(&b, Vertex(tail), Vertex(head), parents, cuts);
    keep_view(view, kind, total, pairs)
}
