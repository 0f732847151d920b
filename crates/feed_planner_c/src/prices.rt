// Price lists as text: read, written, merged, made into cards and made of cards.
ghost use Rattle.price_list.specs.Reads.{Reads};
ghost use Rattle.feed_planner.specs.Prices.{StoresList, StoresPrices, StoresMade, StoresMerged};

#[unsafe(no_mangle)]
pub extern "C" fn feed_read_prices(
    text: &[u8],
    n: u32,
    root: u32,
    prices: &mut [u32],
    line: &mut usize,
) -> u32
    ensures { Reads text.now n root prices.old prices.new (record { answer = result; line = line.new }) }
{
    feed_planner::feed_read_prices(text, n, root, prices, line)
}

#[unsafe(no_mangle)]
pub extern "C" fn feed_write_prices(
    prices: &[u32],
    n: u32,
    root: u32,
    out: &mut [u8],
    length: &mut usize,
) -> u32
    ensures { StoresList prices.now n root out.old out.new length.old length.new result }
{
    feed_planner::feed_write_prices(prices, n, root, out, length)
}

#[unsafe(no_mangle)]
pub extern "C" fn feed_card_from_prices(
    text: &[u8],
    n: u32,
    root: u32,
    budget: u32,
    out: &mut [u8],
    length: &mut usize,
    line: &mut usize,
) -> u32
    ensures { StoresMade text.now n root budget out.old out.new length.old length.new line.new result }
{
    feed_planner::feed_card_from_prices(text, n, root, budget, out, length, line)
}

#[unsafe(no_mangle)]
pub extern "C" fn feed_prices_from_card(card: &[u8], out: &mut [u8], length: &mut usize) -> u32
    ensures { StoresPrices card.now out.old out.new length.old length.new result }
{
    feed_planner::feed_prices_from_card(card, out, length)
}

#[unsafe(no_mangle)]
pub extern "C" fn feed_merge_lists(
    school: &[u8],
    shipped: &[u8],
    n: u32,
    root: u32,
    out: &mut [u8],
    length: &mut usize,
    list: &mut u32,
    line: &mut usize,
) -> u32
    ensures { StoresMerged school.now shipped.now n root out.old out.new length.old length.new list.new line.new result }
{
    feed_planner::feed_merge_lists(school, shipped, n, root, out, length, list, line)
}
