// The row of prices that is used for a tail, told by the list that it stands in and its first place there.
ghost use Rattle.feed_planner.specs.Rows.{TellsRow};

#[unsafe(no_mangle)]
pub extern "C" fn feed_row_used<'a>(
    school: &'a [u32],
    shipped: &'a [u32],
    n: u32,
    tail: u32,
    own: &mut u32,
    place: &mut usize,
) -> u32
    ensures { TellsRow school.now shipped.now n tail own.old own.new place.old place.new result }
{
    feed_planner::feed_row_used(school, shipped, n, tail, own, place)
}
