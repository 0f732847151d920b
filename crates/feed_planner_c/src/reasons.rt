// Why a link of a card is closed, open or sure, and the plan without it.
ghost use Rattle.planner.specs.Explaining.{tree_buffers};
ghost use Rattle.feed_planner.specs.Words.{words, words_with};
ghost use Rattle.feed_planner.specs.Reasons.{ExplainsCard, PlansWithoutCard};

#[unsafe(no_mangle)]
pub extern "C" fn feed_why(
    card: &[u8],
    tail: u32,
    head: u32,
    parents: &mut [u8],
    cuts: &mut [u32],
    reason: &mut u32,
    setter: &mut u32,
    rival: &mut u32,
    kind: &mut u32,
    total: &mut u32,
    pairs: &mut u32,
) -> u32
    ensures { ExplainsCard card.now tail head (tree_buffers parents.old cuts.old) (tree_buffers parents.new cuts.new)
        (words_with reason.old setter.old rival.entry.now (words kind.entry.now total.old pairs.old))
        (words_with reason.new setter.new rival.exit.now (words kind.exit.now total.new pairs.new)) result }
{
    feed_planner::feed_why(
        card, tail, head, parents, cuts, reason, setter, rival, kind, total, pairs,
    )
}

#[unsafe(no_mangle)]
pub extern "C" fn feed_plan_without(
    card: &[u8],
    tail: u32,
    head: u32,
    parents: &mut [u8],
    cuts: &mut [u32],
    kind: &mut u32,
    total: &mut u32,
    pairs: &mut u32,
) -> u32
    ensures { PlansWithoutCard card.now tail head (tree_buffers parents.old cuts.old) (tree_buffers parents.new cuts.new)
        (words kind.old total.old pairs.old) (words kind.new total.new pairs.new) result }
{
    feed_planner::feed_plan_without(card, tail, head, parents, cuts, kind, total, pairs)
}
