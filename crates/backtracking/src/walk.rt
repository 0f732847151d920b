// The walk, two functions that call each other: settling a vertex hands over to trying its tails, each try to the next
// vertex. Vertices left and then tails left fall as a pair, so the walk ends, and no more than twice as many calls are
// open as there are vertices.
ghost use Rattle.std.specs.Prelude.{◌≡◌, true, ◌&&◌, ◌||◌, ◌≢◌, ◌+◌, ◌-◌, ◌≤◌, ◌<◌, eqb, ltb, length, take};
ghost use Rattle.instance.specs.Limits.{max_vertices, max_tries};
ghost use Rattle.instance.specs.Arborescence.{reaches};
ghost use Rattle.instance.specs.Matrix.{matrix_instance};
ghost use Rattle.enumeration.specs.Events.{events_from, tail_events};
ghost use Rattle.backtracking.specs.Listing.{is_complete, Settling, Walks};

use crate::Progress;
use crate::cycle::closes_cycle;
use crate::store::store_tree;
use enumeration::Ended;
use instance::limits::{CELLS, NO_ARC, NO_PARENT, VERTICES};

fn goes_on(ended: Ended) -> bool
    ensures { result ≡ is_complete ended }
{
    matches!(ended, Ended::Complete)
}

// Whether nothing comes after the arc from t into v: it closes a cycle, or v is the last vertex and the sum with it is
// over the budget.
fn ends_there(parents: &[u8; VERTICES], n: u32, budget: u32, v: u32, t: u32, sum: u32) -> bool
    requires { (n ≤ max_vertices) × (v < n) }
    ensures { result ≡ reaches n v (take v parents.now) t || (eqb (v + 1) n && ltb budget sum) }
{
    closes_cycle(parents, n, v, t) || v + 1 == n && budget < sum
}

// Settles vertex v and those after it, in every way.
#[cycle(settle_try_tail)]
pub fn settle(
    m: &[u32; CELLS], // the weights of the remaining arcs
    parents: [u8; VERTICES], // those of the vertices below v
    n: u32, // the number of vertices
    root: u32, // one of them
    budget: u32,
    v: u32, // the next vertex
    sum: u32, // the weights of the arcs below v
    progress: Progress,
    out: &mut [u8],
) -> Progress
    requires { Settling m.now parents n root v sum × (is_complete progress.ended ≡ true) × (progress.trees + progress.left ≤ max_tries) }
    ensures { Walks n (events_from (n - v) v (matrix_instance n root budget m.now) (take v parents)) progress out.old out.new result }
{
    if v == n {
        if budget < sum {
            return progress;
        }
        return store_tree(&parents, n, progress, out);
    }
    if v == root {
        let mut next = parents;
        next[v as usize] = NO_PARENT;
        return settle(m, next, n, root, budget, v + 1, sum, progress, out);
    }
    let mut p = progress;
    for t in 0..n {
        p = try_tail(m, &parents, n, root, budget, v, t, sum, p, out);
    }
    p
}

// Tries the arc from t into vertex v: counts the try, and goes on to the next vertex where no cycle is closed.
#[cycle(settle_try_tail)]
fn try_tail(
    m: &[u32; CELLS],
    parents: &[u8; VERTICES],
    n: u32,
    root: u32,
    budget: u32,
    v: u32,
    t: u32, // the tail
    sum: u32,
    progress: Progress,
    out: &mut [u8],
) -> Progress
    requires { Settling m.now parents.now n root v sum × (v < n) × (v ≢ root) × (t < n) × (progress.trees + progress.left ≤ max_tries + 1) }
    ensures { Walks n (tail_events (n - (v + 1)) v (matrix_instance n root budget m.now) (take v parents.now) t) progress out.old out.new result }
{
    if !goes_on(progress.ended) {
        return progress;
    }
    let weight = m[(32 * t + v) as usize];
    if weight == NO_ARC {
        return progress;
    }
    if progress.left == 0 {
        return Progress {
            left: progress.left,
            trees: progress.trees,
            ended: Ended::AtLimit,
        };
    }
    let after = sum + weight;
    if ends_there(parents, n, budget, v, t, after) {
        return Progress {
            left: progress.left - 1,
            trees: progress.trees,
            ended: progress.ended,
        };
    }
    let mut next = *parents;
    next[v as usize] = t as u8;
    let tried = Progress {
        left: progress.left - 1,
        trees: progress.trees,
        ended: progress.ended,
    };
    settle(m, next, n, root, budget, v + 1, after, tried, out)
}
