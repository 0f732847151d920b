// A look at a card, the text that the planner prints of it, and a list of calls with a look at the end.
ghost use Rattle.planner.specs.Looking.{buffers};
ghost use Rattle.feed_planner.specs.Words.{words};
ghost use Rattle.feed_planner.specs.Looking.{LooksAtCard, ReplaysCard, Prints};

use crate::words::keep_view;
use instance::refusals::BUFFER_SHORT;
use planner::{look, open_card, replay};
use report::{MAX_TEXT, report};

// The buffers take what `look` puts into them, and the three words the outcome's kind, its total and how many pairs of
// cuts there are.
pub fn feed_look(
    card: &[u8],
    parents: &mut [u8],
    states: &mut [u8],
    cuts: &mut [u32],
    kind: &mut u32,
    total: &mut u32,
    pairs: &mut u32,
) -> u32
    ensures { LooksAtCard card.now
        (buffers parents.old states.old cuts.old) (buffers parents.new states.new cuts.new)
        (words kind.old total.old pairs.old) (words kind.new total.new pairs.new) result }
{
    let b = match open_card(card) {
        Ok(board) => board,
        Err(refusal) => return u32::from(refusal),
    };
    let view = look(&b, parents, states, cuts);
    keep_view(view, kind, total, pairs)
}

// The list and the buffers are those of `replay`, and the three words those of a look.
pub fn feed_replay(
    card: &[u8],
    kinds: &[u8],
    firsts: &[u32],
    seconds: &[u32],
    answers: &mut [u32],
    parents: &mut [u8],
    states: &mut [u8],
    cuts: &mut [u32],
    kind: &mut u32,
    total: &mut u32,
    pairs: &mut u32,
) -> u32
    ensures { ReplaysCard card.now kinds.now firsts.now seconds.now answers.old answers.new
        (buffers parents.old states.old cuts.old) (buffers parents.new states.new cuts.new)
        (words kind.old total.old pairs.old) (words kind.new total.new pairs.new) result }
{
    let view = replay(card, kinds, firsts, seconds, answers, parents, states, cuts);
    keep_view(view, kind, total, pairs)
}

// A card that does not open has a text too, the line of its refusal; so the one refusal here is that of the buffer.
pub fn feed_print(card: &[u8], out: &mut [u8], length: &mut usize) -> u32
    ensures { Prints card.now out.old out.new length.old length.new result }
{
    if out.len() < MAX_TEXT {
        return BUFFER_SHORT;
    }
    let reported = report(card, out);
    *length = reported.length;
    0
}
