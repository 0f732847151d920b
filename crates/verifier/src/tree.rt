// Whether a list of parents is an arborescence of the remaining arcs, and what it costs.
ghost use Rattle.std.specs.Prelude.{◌≡◌, true, cond, ◌≤◌, ◌<◌, eqb, length, take};
ghost use Rattle.instance.specs.Instance.{weight};
ghost use Rattle.instance.specs.Arborescence.{parent, reaches, parent_ok, is_arborescence as arborescence, total as total_of};
ghost use Rattle.verifier.specs.Judged.{judged};

use crate::arcs::Arcs;
use checks::arc::is_arc;
use instance::limits::NO_PARENT;

// Whether the parents lead from a vertex to the root. A parent that is no vertex leads nowhere.
fn reaches_root(arcs: &Arcs<'_>, parents: &[u8], vertex: u32) -> bool
    requires { arcs.now.n ≤ length parents.now }
    ensures { result ≡ reaches arcs.now.n arcs.now.root (take arcs.now.n parents.now) vertex }
{
    let mut v = vertex;
    for _ in 0..arcs.n {
        if v == arcs.root {
            return true;
        }
        if arcs.n <= v {
            return false;
        }
        v = parents[v as usize] as u32;
    }
    v == arcs.root
}

// Whether the parent of a vertex is one that an arborescence can have there.
fn is_parent_ok(arcs: &Arcs<'_>, parents: &[u8], vertex: u32) -> bool
    requires { (arcs.now.n ≤ length parents.now) × (vertex < arcs.now.n) }
    ensures { result ≡ parent_ok (judged arcs.now) (take arcs.now.n parents.now) vertex }
{
    let parent = parents[vertex as usize];
    if vertex == arcs.root {
        return parent == NO_PARENT;
    }
    is_arc(arcs.weights, arcs.n, arcs.root, parent as u32, vertex)
        && reaches_root(arcs, parents, vertex)
}

// Whether every vertex has a parent that an arborescence can have there.
pub fn is_arborescence(arcs: &Arcs<'_>, parents: &[u8]) -> bool
    requires { arcs.now.n ≤ length parents.now }
    ensures { result ≡ arborescence (judged arcs.now) (take arcs.now.n parents.now) }
{
    for v in (0..arcs.n).rev() {
        if !is_parent_ok(arcs, parents, v) {
            return false;
        }
    }
    true
}

// What the arc into a vertex costs; the root has none.
fn weight_into(arcs: &Arcs<'_>, parents: &[u8], vertex: u32) -> u32
    requires { (arcs.now.n ≤ length parents.now) × (vertex < arcs.now.n) × (arborescence (judged arcs.now) (take arcs.now.n parents.now) ≡ true) }
    ensures { result ≡ cond (eqb vertex arcs.now.root) 0 (weight (judged arcs.now) (parent (take arcs.now.n parents.now) vertex) vertex) }
{
    if vertex == arcs.root {
        return 0;
    }
    let tail = parents[vertex as usize] as u32;
    arcs.weights[(32 * tail + vertex) as usize]
}

// Whether an arborescence has that total. What is left of it is counted down, so that no sum is formed.
pub fn has_total(arcs: &Arcs<'_>, parents: &[u8], total: u32) -> bool
    requires { (arcs.now.n ≤ length parents.now) × (arborescence (judged arcs.now) (take arcs.now.n parents.now) ≡ true) }
    ensures { result ≡ eqb (total_of (judged arcs.now) (take arcs.now.n parents.now)) total }
{
    let mut rest = total;
    for v in (0..arcs.n).rev() {
        let weight = weight_into(arcs, parents, v);
        if rest < weight {
            return false;
        }
        rest -= weight;
    }
    rest == 0
}
