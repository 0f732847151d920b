// What a card says, for whoever draws it: count, root, budget, how many presses are recorded, and the price and the
// mark of every pair.
ghost use Rattle.std.specs.Prelude.{◌≡◌, ◌*◌, ◌≤◌, length};
ghost use Rattle.base.specs.Lists.{in_front};
ghost use Rattle.instance.specs.Limits.{max_vertices, cells};
ghost use Rattle.price_list.specs.Reads.{dense};
ghost use Rattle.feed_planner.specs.Sheets.{sheet, sheet_short, ReadsSheet};

use instance::limits::CELLS;
use instance::refusals::BUFFER_SHORT;
use planner::open_card;
use price_list::read::copy_prices;

fn copy_marks(table: &[u8; CELLS], n: u32, marks: &mut [u8])
    requires { (n ≤ max_vertices) × (length table.now ≡ cells) × (n * n ≤ length marks.old) }
    ensures { marks.new ≡ in_front (dense n table.now) marks.old }
{
    let total = n * n;
    let mut k: u32 = 0;
    while k < total {
        let i = (32 * (k / n) + k % n) as usize;
        marks[k as usize] = table[i];
        k += 1;
    }
}

fn is_sheet_short(n: u32, prices: usize, marks: usize) -> bool
    requires { n ≤ max_vertices }
    ensures { result ≡ sheet_short n prices marks }
{
    let size = (n * n) as usize;
    if prices < size {
        return true;
    }
    marks < size
}

pub fn feed_sheet(
    card: &[u8],
    prices: &mut [u32], // takes n times n words
    marks: &mut [u8], // takes n times n bytes
    n: &mut u32,
    root: &mut u32,
    budget: &mut u32,
    records: &mut usize, // takes the number of recorded presses
) -> u32
    ensures { ReadsSheet card.now
        (sheet n.entry.now root.old budget.old records.old prices.old marks.entry.now)
        (sheet n.exit.now root.new budget.new records.new prices.new marks.exit.now) result }
{
    let b = match open_card(card) {
        Ok(board) => board,
        Err(refusal) => return u32::from(refusal),
    };
    let count = b.n;
    if is_sheet_short(count, prices.len(), marks.len()) {
        return BUFFER_SHORT;
    }
    copy_prices(&b.weights, count, prices);
    copy_marks(&b.marks, count, marks);
    *n = count;
    *root = b.root;
    *budget = b.budget;
    *records = b.count;
    0
}
