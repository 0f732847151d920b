// A look at a card, the text that the planner prints of it, and a list of calls with a look at the end.
ghost use Rattle.planner.specs.Looking.{buffers};
ghost use Rattle.feed_planner.specs.Words.{words};
ghost use Rattle.feed_planner.specs.Looking.{LooksAtCard, ReplaysCard, Prints};

#[unsafe(no_mangle)]
pub extern "C" fn feed_look(
    card: &[u8],
    parents: &mut [u8],
    states: &mut [u8],
    cuts: &mut [u32],
    kind: &mut u32,
    total: &mut u32,
    pairs: &mut u32,
) -> u32
    ensures { LooksAtCard card.now
        (buffers parents.old states.old cuts.old) (buffers parents.new states.new cuts.new)
        (words kind.old total.old pairs.old) (words kind.new total.new pairs.new) result }
{
    feed_planner::feed_look(card, parents, states, cuts, kind, total, pairs)
}

#[unsafe(no_mangle)]
pub extern "C" fn feed_replay(
    card: &[u8],
    kinds: &[u8],
    firsts: &[u32],
    seconds: &[u32],
    answers: &mut [u32],
    parents: &mut [u8],
    states: &mut [u8],
    cuts: &mut [u32],
    kind: &mut u32,
    total: &mut u32,
    pairs: &mut u32,
) -> u32
    ensures { ReplaysCard card.now kinds.now firsts.now seconds.now answers.old answers.new
        (buffers parents.old states.old cuts.old) (buffers parents.new states.new cuts.new)
        (words kind.old total.old pairs.old) (words kind.new total.new pairs.new) result }
{
    feed_planner::feed_replay(
        card, kinds, firsts, seconds, answers, parents, states, cuts, kind, total, pairs,
    )
}

#[unsafe(no_mangle)]
pub extern "C" fn feed_print(card: &[u8], out: &mut [u8], length: &mut usize) -> u32
    ensures { Prints card.now out.old out.new length.old length.new result }
{
    feed_planner::feed_print(card, out, length)
}
