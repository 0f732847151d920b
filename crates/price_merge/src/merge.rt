// Two lists read, the rows used copied one behind the other, and the list of these written.
ghost use Rattle.price_merge.specs.Merge.{merging_told, Merges};

use crate::rows::put_rows;
use instance::Vertex;
use instance::limits::{CELLS, NO_ARC};
use instance::refusals::Refusal;
use price_list::{Refused, read_prices, write_prices};

// Why two lists are not merged: one of them is refused, or the merged one is. A bad count or root is met with the first
// list, the school's.
#[derive(Clone, Copy, Debug, PartialEq, Eq)]
pub enum MergeRefused {
    School(Refused),
    Shipped(Refused),
    Merged(Refusal),
}

// Writes the price list of the rows that are used and gives its length; bytes behind it stay.
pub fn merge_lists(
    school: &[u8],
    shipped: &[u8],
    n: u32,
    root: Vertex,
    out: &mut [u8],
) -> Result<usize, MergeRefused>
    ensures { Merges school.now shipped.now n root.0 out.old out.new (merging_told result) }
{
    let mut own = [NO_ARC; CELLS];
    read_prices(school, n, root, &mut own).map_err(MergeRefused::School)?;
    let mut others = [NO_ARC; CELLS];
    read_prices(shipped, n, root, &mut others).map_err(MergeRefused::Shipped)?;
    let mut used = [NO_ARC; CELLS];
    put_rows(&own, &others, n, &mut used);
    write_prices(&used, n, root, out).map_err(MergeRefused::Merged)
}
