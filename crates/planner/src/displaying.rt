// What planning found, copied into the caller's buffers: the first places are filled, all others keep their contents.
ghost use Rattle.std.specs.Prelude.{◌≡◌, ◌*◌, ◌≤◌, length};
ghost use Rattle.instance.specs.Limits.{max_vertices, cut_words};
ghost use Rattle.planner.specs.Displaying.{DisplaysPlan, Displays};
ghost use Rattle.planner.specs.Looking.{buffers};

use instance::limits::{CELLS, CUT_WORDS};
use survey::Survey;
use survey::first_plan::FirstPlan;

// The plan alone.
pub fn display_plan(plan: FirstPlan, n: u32, parents: &mut [u8], cuts: &mut [u32])
    requires { (n ≤ max_vertices) × (n ≤ length parents.old) × (cut_words ≤ length cuts.old) }
    ensures { DisplaysPlan plan n parents.old parents.new cuts.old cuts.new }
{
    let count = n as usize;
    parents[..count].copy_from_slice(&plan.parents[..count]);
    cuts[..CUT_WORDS].copy_from_slice(&plan.cuts);
}

pub fn display(
    surveyed: Survey, // what planning found
    weights: &[u32; CELLS], // the instance's, which tell where an arc is
    n: u32, // the number of vertices
    root: u32, // one of them
    parents: &mut [u8], // takes n bytes
    states: &mut [u8], // takes n times n bytes
    cuts: &mut [u32], // takes 122 words
)
    requires { (n ≤ max_vertices) × (n ≤ length parents.now) × (n * n ≤ length states.now) × (cut_words ≤ length cuts.now) }
    ensures { Displays surveyed weights.entry.now n root (buffers parents.entry.now states.entry.now cuts.entry.now) (buffers parents.exit.now states.exit.now cuts.exit.now) }
{
    display_plan(surveyed.plan, n, parents, cuts);
    states::show::write_states(&surveyed.used, weights, n, root, states);
}
