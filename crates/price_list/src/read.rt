// A whole list read: line by line into a table, and from there into the caller's words, so that a refused list leaves
// them as they were.
ghost use Rattle.std.specs.Prelude.{◌≡◌, ◌*◌, ◌≤◌, length, []};
ghost use Rattle.base.specs.Lists.{in_front};
ghost use Rattle.instance.specs.Limits.{max_vertices, cells};
ghost use Rattle.price_list.specs.Lines.{TableOf};
ghost use Rattle.price_list.specs.Reads.{reading_told, ReadsTable, dense, Reads};

use crate::lines::take_line;
pub use crate::list_refusal::Refused;
use crate::room::check_room;
use instance::Vertex;
use instance::limits::{CELLS, NO_ARC};

// Reads a list into a table that has no arc yet, with a stride of 32.
pub fn read_table(text: &[u8], n: u32, root: u32, table: &mut [u32; CELLS]) -> Result<(), Refused>
    requires { (n ≤ max_vertices) × TableOf [] table.old }
    ensures { ReadsTable text.now n root table.new (reading_told result) }
{
    let mut at = 0;
    let mut line = 0;
    while at < text.len() {
        line += 1;
        match take_line(text, at, n, root, table) {
            Ok(next) => at = next,
            Err(refusal) => {
                return Err(Refused {
                    refusal,
                    line: Some(line),
                });
            }
        }
    }
    Ok(())
}

// The n times n weights of a table, tail by tail, into the caller's words.
pub fn copy_prices(table: &[u32; CELLS], n: u32, prices: &mut [u32])
    requires { (n ≤ max_vertices) × (length table.now ≡ cells) × (n * n ≤ length prices.old) }
    ensures { prices.new ≡ in_front (dense n table.now) prices.old }
{
    let total = n * n;
    for k in 0..total {
        let i = (32 * (k / n) + k % n) as usize;
        prices[k as usize] = table[i];
    }
}

// Reads a price list: the first n times n words take the prices, feeder by feeder, and the others stay.
#[tactic(auto, using(crate::proofs::LineLaws::table_none, crate::proofs::RoomLaws::count_small, crate::proofs::RoomLaws::room_count, crate::proofs::RoomLaws::room_words))]
pub fn read_prices(text: &[u8], n: u32, root: Vertex, prices: &mut [u32]) -> Result<(), Refused>
    ensures { Reads text.now n root.0 prices.old prices.new (reading_told result) }
{
    check_room(n, root.0, prices.len())?;
    let mut table = [NO_ARC; CELLS];
    read_table(text, n, root.0, &mut table)?;
    copy_prices(&table, n, prices);
    Ok(())
}
