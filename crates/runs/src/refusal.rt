// Why a graph is refused: by the count, the room, and then its cells one after the other.
ghost use Rattle.std.specs.Prelude.{◌≡◌, ◌*◌, ◌≤◌, ◌<◌, length};
ghost use Rattle.instance.specs.Limits.{max_vertices};
ghost use Rattle.instance.specs.RefusalNumbers.{answer_of};
ghost use Rattle.spanning.specs.Graph.{graph_of};
ghost use Rattle.spanning.specs.Refusal.{cell_refusal, graph_refusal, room_refusal, call_refusal};

use checks::valid::cell_ok;
use instance::limits::MAX_VERTICES;
use instance::refusals::Refusal;
use prim::place::Place;

fn check_edge(weights: &[u32], marks: &[u8], n: u32, i: u32, j: u32) -> Result<(), Refusal>
    requires { (n ≤ max_vertices) × (n * n ≤ length weights.now) × (n * n ≤ length marks.now) × (i < n) × (j < n) }
    ensures { answer_of result ≡ cell_refusal (graph_of n weights.now marks.now) i j }
{
    if i == j {
        return Ok(());
    }
    let place = (i * n + j) as usize;
    let turned = (j * n + i) as usize;
    if !cell_ok(weights[place], marks[place]) {
        return Err(Refusal::OutOfRange);
    }
    if weights[place] != weights[turned] || marks[place] != marks[turned] {
        return Err(Refusal::UnequalPair);
    }
    Ok(())
}

fn check_edges(weights: &[u32], marks: &[u8], n: u32) -> Result<(), Refusal>
    requires { (1 ≤ n) × (n ≤ max_vertices) × (n * n ≤ length weights.now) × (n * n ≤ length marks.now) }
    ensures { answer_of result ≡ graph_refusal (graph_of n weights.now marks.now) }
{
    let mut place = Place::first();
    for _ in 0..n * n {
        check_edge(weights, marks, n, place.row, place.column)?;
        place = place.next(n);
    }
    Ok(())
}

// Whether the count is in range, and the lengths of the two lists and of the two buffers are enough.
fn check_room(
    n: u32,
    weights: usize,
    marks: usize,
    states: usize,
    costs: usize,
) -> Result<(), Refusal>
    ensures { answer_of result ≡ room_refusal n weights marks states costs }
{
    if n == 0 || MAX_VERTICES < n {
        return Err(Refusal::CountOutOfRange);
    }
    let size = (n * n) as usize;
    if weights < size || marks < size || states < size || costs < size {
        return Err(Refusal::BufferShort);
    }
    Ok(())
}

pub fn check_runs(
    weights: &[u32],
    marks: &[u8],
    n: u32,
    states: usize,
    costs: usize,
) -> Result<(), Refusal>
    ensures { answer_of result ≡ call_refusal (graph_of n weights.now marks.now) states costs }
{
    check_room(n, weights.len(), marks.len(), states, costs)?;
    check_edges(weights, marks, n)
}
