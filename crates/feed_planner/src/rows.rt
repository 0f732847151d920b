// The row of prices that is used for a tail, told by the list that it stands in and its first place there.
ghost use Rattle.feed_planner.specs.Rows.{TellsRow};

use instance::Vertex;
use planner::row_used;
use price_row::row::has_price;

// One lifetime for both lists, as `row_used` has it. `own` takes 1 for the school's list and 0 for the shipped one.
pub fn feed_row_used<'a>(
    school: &'a [u32],
    shipped: &'a [u32],
    n: u32,
    tail: u32,
    own: &mut u32,
    place: &mut usize,
) -> u32
    ensures { TellsRow school.now shipped.now n tail own.old own.new place.old place.new result }
{
    let mut answer = 0;
    row_used(school, shipped, n, Vertex(tail), &mut answer);
    if answer != 0 {
        return answer;
    }
    let start = (tail * n) as usize;
    let end = start + n as usize;
    *own = has_price(&school[start..end]) as u32;
    *place = start;
    0
}
