// The cheapest arc that enters a group. Only the columns of the group's own vertices are read: a group of one vertex
// costs n steps.

ghost use Rattle.std.specs.Prelude.{◌≡◌, ◌+◌, ◌≤◌, ◌<◌};
ghost use Rattle.instance.specs.Limits.{max_vertices};
ghost use Rattle.contraction.specs.Cells.{nth};
ghost use Rattle.charging.specs.Entering.{weight_of, CheapestArc};

use instance::Vertex;
use instance::limits::{CELLS, NO_ARC, VERTICES};

// An arc into a group.
#[derive(Clone, Copy)]
pub struct Entering {
    pub tail: Vertex,
    pub head: Vertex,
    pub weight: u32,
}

// What an arc has to be below to be cheaper.
fn weight_of(best: Option<Entering>) -> u32
    ensures { result ≡ weight_of best }
{
    match best {
        Some(arc) => arc.weight,
        None => NO_ARC,
    }
}

// The cheapest of one arc and those from outside the group into its vertex h.
fn cheapest_into(
    w: &[u32; CELLS],
    label: &[u8; VERTICES],
    n: usize,
    g: Vertex,
    h: usize,
    best: Option<Entering>,
) -> Option<Entering>
    requires n_le_max_vertices { (n ≤ max_vertices) × (g.0 < n) × (h < n) × (nth label.now h ≡ g.0) }
    requires cheapest_arc { CheapestArc w.now label.now n g.0 h best }
    ensures { CheapestArc w.now label.now n g.0 (h + 1) result }
{
    let group = g.0 as u8;
    let mut cheapest = best;
    for t in 0..n {
        if label[t] != group {
            let weight = w[32 * t + h];
            if weight < weight_of(cheapest) {
                cheapest = Some(Entering {
                    tail: Vertex(t as u32),
                    head: Vertex(h as u32),
                    weight,
                });
            }
        }
    }
    cheapest
}

pub fn cheapest_arc(
    w: &[u32; CELLS],
    label: &[u8; VERTICES],
    n: usize,
    g: Vertex,
) -> Option<Entering>
    requires { (n ≤ max_vertices) × (g.0 < n) }
    ensures { CheapestArc w.now label.now n g.0 n result }
{
    let own = g.0 as u8;
    let mut best = None;
    for h in 0..n {
        if label[h] == own {
            best = cheapest_into(w, label, n, g, h, best);
        }
    }
    best
}
