// A plan made elsewhere, checked for a board. Nothing is planned and no buffer is filled.
ghost use Rattle.instance.specs.RefusalNumbers.{answer_of};
ghost use Rattle.planner.specs.Checking.{Checks};

use board::Board;
use instance::refusals::Refusal;
use verifier::judge_certificate;

// Accepts the plan where it is a cheapest tree and the cuts prove it, or says why not. `parents` has a byte for each
// vertex, 255 at the root; `cuts` has `count` pairs of words, a set and its value. The budget is not judged.
pub fn check_plan(
    b: Board,
    parents: &[u8],
    total: u32,
    count: u32,
    cuts: &[u32],
) -> Result<(), Refusal>
    ensures { Checks b parents.now parents.now total count cuts.now cuts.now (answer_of result) }
{
    if !board::valid::is_valid(&b) {
        return Err(Refusal::InvalidBoard);
    }
    judge_certificate(
        &b.weights, &b.marks, parents, cuts, b.n, b.root, total, count,
    )
}
