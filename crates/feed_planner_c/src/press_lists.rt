// A prepared list of presses on a card: made in order up to the first refused one, and the card of what they did.
ghost use Rattle.std.specs.Prelude.{length};
ghost use Rattle.feed_planner.specs.PressLists.{PressesList};

#[unsafe(no_mangle)]
pub extern "C" fn feed_press_list(
    card: &[u8],
    kinds: &[u8],
    firsts: &[u32],
    seconds: &[u32],
    out: &mut [u8],
    length: &mut usize,
    applied: &mut usize,
    stopped: &mut u32,
) -> u32
    ensures { PressesList card.now kinds.now firsts.now seconds.now out.old out.new
        length.old length.new applied.old applied.new stopped.old stopped.new result }
{
    feed_planner::feed_press_list(card, kinds, firsts, seconds, out, length, applied, stopped)
}
