// All plans of a board: every feed tree within marks and budget, listed in the caller's buffer. Nothing is planned, and
// no tree is looked for in the order of its price.
ghost use Rattle.std.specs.Prelude.{◌≡◌};
ghost use Rattle.enumeration.specs.Walk.{limit_refused};
ghost use Rattle.planner.specs.Enumerating.{listing_from, Lists};

use crate::Listing;
use backtracking::list_trees;
use board::Board;
use instance::limits::MAX_TRIES;
use instance::refusals::Refusal;

fn is_limit_refused(limit: u32) -> bool
    ensures { result ≡ limit_refused limit }
{
    limit == 0 || MAX_TRIES < limit
}

// The trees stand in the buffer one after the other, n bytes each, 255 at the root, in ascending order. At most `limit`
// tries are made; a buffer that is too short ends the listing and is no fault.
pub fn list_plans(b: Board, limit: u32, out: &mut [u8]) -> Result<Listing, Refusal>
    ensures { Lists b limit out.old out.new (listing_from result) }
{
    if !board::valid::is_valid(&b) {
        return Err(Refusal::InvalidBoard);
    }
    if is_limit_refused(limit) {
        return Err(Refusal::BadTryLimit);
    }
    let p = list_trees(&b.weights, &b.marks, b.n, b.root, b.budget, limit, out);
    Ok(Listing {
        ended: p.ended,
        trees: p.trees,
        tries: limit - p.left,
    })
}
