// A plan made elsewhere, checked for a card; and all plans of a card.
ghost use Rattle.std.specs.Prelude.{◌≡◌};
ghost use Rattle.feed_planner.specs.Words.{words};
ghost use Rattle.feed_planner.specs.Plans.{check_number, StoresListing};

use crate::words::keep_listing;
use planner::{check_plan, list_plans, open_card};

pub fn feed_check_plan(card: &[u8], parents: &[u8], total: u32, count: u32, cuts: &[u32]) -> u32
    ensures { result ≡ check_number card.now parents.now total count cuts.now }
{
    let b = match open_card(card) {
        Ok(board) => board,
        Err(refusal) => return u32::from(refusal),
    };
    match check_plan(b, parents, total, count, cuts) {
        Ok(()) => 0,
        Err(refusal) => u32::from(refusal),
    }
}

// The trees stand in the buffer one after the other, n bytes each; the words take how the listing ended, how many trees
// there are and how many tries were made.
pub fn feed_list_plans(
    card: &[u8],
    limit: u32,
    out: &mut [u8],
    ended: &mut u32,
    trees: &mut u32,
    tries: &mut u32,
) -> u32
    ensures { StoresListing card.now limit out.old out.new
        (words ended.old trees.old tries.old) (words ended.new trees.new tries.new) result }
{
    let b = match open_card(card) {
        Ok(board) => board,
        Err(refusal) => return u32::from(refusal),
    };
    let listing = list_plans(b, limit, out);
    keep_listing(listing, ended, trees, tries)
}
