// A plan made elsewhere, checked for a card; and all plans of a card.
ghost use Rattle.std.specs.Prelude.{◌≡◌};
ghost use Rattle.feed_planner.specs.Words.{words};
ghost use Rattle.feed_planner.specs.Plans.{check_number, StoresListing};

#[unsafe(no_mangle)]
pub extern "C" fn feed_check_plan(
    card: &[u8],
    parents: &[u8],
    total: u32,
    count: u32,
    cuts: &[u32],
) -> u32
    ensures { result ≡ check_number card.now parents.now total count cuts.now }
{
    feed_planner::feed_check_plan(card, parents, total, count, cuts)
}

#[unsafe(no_mangle)]
pub extern "C" fn feed_list_plans(
    card: &[u8],
    limit: u32,
    out: &mut [u8],
    ended: &mut u32,
    trees: &mut u32,
    tries: &mut u32,
) -> u32
    ensures { StoresListing card.now limit out.old out.new
        (words ended.old trees.old tries.old) (words ended.new trees.new tries.new) result }
{
    feed_planner::feed_list_plans(card, limit, out, ended, trees, tries)
}
