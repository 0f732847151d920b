// Passive runs: a hall of them is planned with no card and no board.
ghost use Rattle.spanning.specs.Graph.{graph_of};
ghost use Rattle.feed_planner.specs.Words.{words};
ghost use Rattle.feed_planner.specs.PassiveRuns.{TellsRuns};

use crate::words::keep_runs;
use planner::plan_runs;

pub fn feed_plan_runs(
    prices: &[u32],
    marks: &[u8],
    n: u32,
    budget: u32,
    states: &mut [u8],
    replacements: &mut [u32],
    kind: &mut u32,
    total: &mut u32,
) -> u32
    ensures { TellsRuns (graph_of n prices.now marks.now) budget states.old states.new replacements.old replacements.new
        (words kind.old total.old 0) (words kind.new total.new 0) result }
{
    let view = plan_runs(prices, marks, n, budget, states, replacements);
    keep_runs(view, kind, total)
}
