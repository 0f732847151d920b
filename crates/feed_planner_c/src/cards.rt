// A card judged, written again as a plain card, and moved from one kind to the other.
ghost use Rattle.std.specs.Prelude.{◌≡◌};
ghost use Rattle.history_format.specs.HistoryCard.{open_refusal};
ghost use Rattle.feed_planner.specs.Cards.{StoresPlain, StoresToHistory, StoresToPlain};

#[unsafe(no_mangle)]
pub extern "C" fn feed_judge(card: &[u8]) -> u32
    ensures { result ≡ open_refusal card.now }
{
    feed_planner::feed_judge(card)
}

#[unsafe(no_mangle)]
pub extern "C" fn feed_write_card(card: &[u8], out: &mut [u8], length: &mut usize) -> u32
    ensures { StoresPlain card.now out.old out.new length.old length.new result }
{
    feed_planner::feed_write_card(card, out, length)
}

#[unsafe(no_mangle)]
pub extern "C" fn feed_to_history_card(card: &[u8], out: &mut [u8], length: &mut usize) -> u32
    ensures { StoresToHistory card.now out.old out.new length.old length.new result }
{
    feed_planner::feed_to_history_card(card, out, length)
}

#[unsafe(no_mangle)]
pub extern "C" fn feed_to_plain_card(card: &[u8], out: &mut [u8], length: &mut usize) -> u32
    ensures { StoresToPlain card.now out.old out.new length.old length.new result }
{
    feed_planner::feed_to_plain_card(card, out, length)
}
