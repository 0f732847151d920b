// Whether a tail can be had: whether some cheapest arborescence that begins like the tree at hand has it. Each test is
// right by itself, and planning decides what the others leave open.
ghost use Rattle.std.specs.Prelude.{◌≡◌, true, ◌≢◌, ◌≤◌, ◌<◌, length, take, IfSome, IfNone};
ghost use Rattle.instance.specs.Limits.{max_vertices};
ghost use Rattle.instance.specs.Arborescence.{total as total_of};
ghost use Rattle.instance.specs.Matrix.{matrix_where, unmarked, MatrixOk};
ghost use Rattle.paths.specs.Paths.{Rooted};
ghost use Rattle.paths.specs.Tree.{MatrixTree};
ghost use Rattle.first_tree.specs.Tails.{admissible_by, TailsOk};
ghost use Rattle.first_tree.specs.Attempt.{LeadsBack, Exchangeable, NoCheaper, AdmissibleTree, NoneAdmissible, TreeWith};
ghost use Rattle.narrowing.specs.Narrowed.{Refuted};
ghost use Rattle.first_tree.specs.Search.{Search, Settled};

use super::Cheapest;
use super::fixing::fix_arc;
use super::growth::{all_reached, grow};
use checks::sets::is_inside;
use detours::descendants::is_descendant;
use instance::limits::{CELLS, CUT_WORDS, NO_ARC, VERTICES};
use instance::{CutIndex, Vertex};

// Whether the parents of vertices below this one, which are settled, lead from the tail back to it.
fn leads_back(parents: &[u8; VERTICES], n: u32, root: u32, tail: u32, vertex: u32) -> bool
    requires { (n ≤ max_vertices) × Rooted n root (take n parents.now) × (tail < n) × (vertex < n) }
    ensures { result ≡ true → LeadsBack (take n parents.now) tail vertex }
{
    let mut v = tail;
    while v != root {
        if vertex <= v {
            return v == vertex;
        }
        v = parents[v as usize] as u32;
    }
    false
}

// Whether the tree at hand can take this tail in exchange for its own, at the same price.
fn can_exchange(
    m: &[u32; CELLS],
    parents: &[u8; VERTICES],
    n: u32,
    root: u32,
    tail: u32,
    vertex: u32,
) -> bool
    requires { MatrixTree n root m.now parents.now × (tail < n) × (vertex < n) × (vertex ≢ root) }
    ensures { result ≡ true → Exchangeable m.now n root (take n parents.now) tail vertex }
{
    let own = parents[vertex as usize] as u32;
    if m[(32 * tail + vertex) as usize] != m[(32 * own + vertex) as usize] {
        return false;
    }
    !is_descendant(parents, n, root, vertex, tail)
}

// What an arborescence costs.
fn tree_total(m: &[u32; CELLS], parents: &[u8; VERTICES], n: u32, root: u32) -> u32
    requires { MatrixTree n root m.now parents.now }
    ensures { result ≡ total_of (unmarked n root m.now) (take n parents.now) }
{
    let mut sum: u32 = 0;
    for v in 0..n {
        if v != root {
            let tail = parents[v as usize] as u32;
            sum += m[(32 * tail + v) as usize];
        }
    }
    sum
}

// The weights of the admissible arcs, and no arc elsewhere.
fn admissible_matrix(m: &[u32; CELLS], tails: &[u32; VERTICES], n: u32, root: u32) -> [u32; CELLS]
    requires { MatrixOk n root m.now × TailsOk (unmarked n root m.now) tails.now }
    ensures { result ≡ matrix_where (unmarked n root m.now) (admissible_by tails.now) }
{
    let mut w = [NO_ARC; CELLS];
    for i in 0..CELLS {
        if is_inside(tails[i % 32], (i / 32) as u32) {
            w[i] = m[i];
        }
    }
    w
}

// A cheapest arborescence of the admissible arcs, if it has that total; else there is none of it.
fn plan_admissible(search: Cheapest, tails: &[u32; VERTICES]) -> Option<[u8; VERTICES]>
    requires { MatrixOk search.n search.root search.m.now × TailsOk (unmarked search.n search.root search.m.now) tails.now × NoCheaper (unmarked search.n search.root search.m.now) search.total }
    ensures some { IfSome result (AdmissibleTree (unmarked search.entry.n search.entry.root search.entry.m.now) search.entry.total (admissible_by tails.entry.now)) }
    ensures none { IfNone result (NoneAdmissible (unmarked search.entry.n search.entry.root search.entry.m.now) search.entry.total (admissible_by tails.entry.now)) }
{
    let mut w = admissible_matrix(search.m, tails, search.n, search.root);
    let mut cuts = [0u32; CUT_WORDS];
    match edmonds::plan_matrix(&mut w, search.n as usize, Vertex(search.root), &mut cuts) {
        Ok(planned) => {
            if planned.total != search.total {
                return None;
            }
            let parents = planned.parents;
            Some(parents)
        }
        Err(_) => None,
    }
}

// With an arc fixed: a tree of admissible arcs, of the cheapest total, if there is one. Where no cut is looked at,
// growing comes to every vertex that admissible arcs lead to.
fn tree_admissible(search: Cheapest, tails: &[u32; VERTICES]) -> Option<[u8; VERTICES]>
    requires { Search search.m.now search.cuts.now search.n search.root search.total search.from.0 search.count × TailsOk (unmarked search.n search.root search.m.now) tails.now }
    ensures some { IfSome result (AdmissibleTree (unmarked search.entry.n search.entry.root search.entry.m.now) search.entry.total (admissible_by tails.entry.now)) }
    ensures none { IfNone result (NoneAdmissible (unmarked search.entry.n search.entry.root search.entry.m.now) search.entry.total (admissible_by tails.entry.now)) }
{
    let no_cuts = Cheapest {
        from: CutIndex(search.count),
        ..search
    };
    let all = grow(no_cuts, tails);
    if !all_reached(all.reached, search.n) {
        return None;
    }
    let tree = grow(search, tails);
    if all_reached(tree.reached, search.n) {
        let parents = tree.parents;
        if tree_total(search.m, &parents, search.n, search.root) == search.total {
            return Some(parents);
        }
    }
    plan_admissible(search, tails)
}

// A cheapest arborescence that begins like the tree at hand below the vertex and has this tail into it, if there is
// one.
pub fn try_tail(
    search: Cheapest, // what the search goes by
    tails: &[u32; VERTICES], // the tails that each vertex can have
    parents: [u8; VERTICES], // the tree at hand
    tail: u32, // the arc, which is admissible
    vertex: u32, // into this vertex
) -> Option<[u8; VERTICES]>
    requires { Search search.m.now search.cuts.now search.n search.root search.total search.from.0 search.count × Settled search.m.now search.n search.root search.total vertex tails.now parents × (vertex < search.n) × (admissible_by tails.now tail vertex ≡ true) }
    ensures some { IfSome result (TreeWith search.entry.m.now search.entry.n search.entry.root search.entry.total vertex tails.entry.now tail) }
    ensures none { IfNone result (Refuted (unmarked search.entry.n search.entry.root search.entry.m.now) search.entry.total vertex (take search.entry.n parents) tail) }
{
    if leads_back(&parents, search.n, search.root, tail, vertex) {
        return None;
    }
    if can_exchange(search.m, &parents, search.n, search.root, tail, vertex) {
        let mut other = parents;
        other[vertex as usize] = tail as u8;
        return Some(other);
    }
    let mut fixed = *tails;
    fix_arc(search, tail, vertex, &mut fixed);
    tree_admissible(search, &fixed)
}
