// A press on a card, and the card after it.
ghost use Rattle.instance.specs.declared.Mark.TheVariants.{Free, Pinned, Banned};
ghost use Rattle.commands.specs.Commands.{set_mark, set_marks, set_budget, undo};
ghost use Rattle.feed_planner.specs.Presses.{Presses};

#[unsafe(no_mangle)]
pub extern "C" fn feed_pin(
    card: &[u8],
    tail: u32,
    head: u32,
    out: &mut [u8],
    length: &mut usize,
) -> u32
    ensures { Presses card.now (set_mark Pinned tail head) out.old out.new length.old length.new result }
{
    feed_planner::feed_pin(card, tail, head, out, length)
}

#[unsafe(no_mangle)]
pub extern "C" fn feed_ban(
    card: &[u8],
    tail: u32,
    head: u32,
    out: &mut [u8],
    length: &mut usize,
) -> u32
    ensures { Presses card.now (set_mark Banned tail head) out.old out.new length.old length.new result }
{
    feed_planner::feed_ban(card, tail, head, out, length)
}

#[unsafe(no_mangle)]
pub extern "C" fn feed_clear(
    card: &[u8],
    tail: u32,
    head: u32,
    out: &mut [u8],
    length: &mut usize,
) -> u32
    ensures { Presses card.now (set_mark Free tail head) out.old out.new length.old length.new result }
{
    feed_planner::feed_clear(card, tail, head, out, length)
}

#[unsafe(no_mangle)]
pub extern "C" fn feed_pin_group(
    card: &[u8],
    tail: u32,
    heads: u32,
    out: &mut [u8],
    length: &mut usize,
) -> u32
    ensures { Presses card.now (set_marks Pinned tail heads) out.old out.new length.old length.new result }
{
    feed_planner::feed_pin_group(card, tail, heads, out, length)
}

#[unsafe(no_mangle)]
pub extern "C" fn feed_ban_group(
    card: &[u8],
    tail: u32,
    heads: u32,
    out: &mut [u8],
    length: &mut usize,
) -> u32
    ensures { Presses card.now (set_marks Banned tail heads) out.old out.new length.old length.new result }
{
    feed_planner::feed_ban_group(card, tail, heads, out, length)
}

#[unsafe(no_mangle)]
pub extern "C" fn feed_clear_group(
    card: &[u8],
    tail: u32,
    heads: u32,
    out: &mut [u8],
    length: &mut usize,
) -> u32
    ensures { Presses card.now (set_marks Free tail heads) out.old out.new length.old length.new result }
{
    feed_planner::feed_clear_group(card, tail, heads, out, length)
}

#[unsafe(no_mangle)]
pub extern "C" fn feed_set_budget(
    card: &[u8],
    budget: u32,
    out: &mut [u8],
    length: &mut usize,
) -> u32
    ensures { Presses card.now (set_budget budget) out.old out.new length.old length.new result }
{
    feed_planner::feed_set_budget(card, budget, out, length)
}

#[unsafe(no_mangle)]
pub extern "C" fn feed_take_back(card: &[u8], out: &mut [u8], length: &mut usize) -> u32
    ensures { Presses card.now undo out.old out.new length.old length.new result }
{
    feed_planner::feed_take_back(card, out, length)
}
