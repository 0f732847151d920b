// What a card says: count, root, budget, how many presses are recorded, and the price and the mark of every pair.
ghost use Rattle.feed_planner.specs.Sheets.{sheet, ReadsSheet};

#[unsafe(no_mangle)]
pub extern "C" fn feed_sheet(
    card: &[u8],
    prices: &mut [u32],
    marks: &mut [u8],
    n: &mut u32,
    root: &mut u32,
    budget: &mut u32,
    records: &mut usize,
) -> u32
    ensures { ReadsSheet card.now
        (sheet n.entry.now root.old budget.old records.old prices.old marks.entry.now)
        (sheet n.exit.now root.new budget.new records.new prices.new marks.exit.now) result }
{
    feed_planner::feed_sheet(card, prices, marks, n, root, budget, records)
}
