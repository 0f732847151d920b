// The tree that is shown of an instance of 32 vertices is the first of its cheapest ones "when compared position by
// position" (02, A10). No listing has them all. But the tree is the first where at no vertex a tree as cheap parts from
// it to a lower tail: with the parents shown for all vertices before that one pinned, and for that one every tail
// banned but the lower ones, the cheapest tree is dearer, or there is none. A look says which, and its own tree and
// cuts prove it.
use crate::exact;
use harness::calls::Shown;
use harness::verdict;
use reference::problem::{ABSENT, BANNED, CELLS, FREE, MAX_VERTICES, PINNED, Problem};
use reference::random::Random;
use reference::tally::Tally;
use reference::{access, families, outcome, problem};

// What the program counts beside the faults. Vertices without a lower tail need no look.
const INSTANCES: u32 = 3;

const VERTICES: u32 = 4;

// Whether an arc from a lower tail than its parent remains into a vertex. None does into the root, nor into a vertex
// whose parent is pinned.
fn has_lower(table: &[u32; CELLS], parent: u32, vertex: u32) -> bool {
    (0..parent).any(|tail| table[problem::cell(tail, vertex)] != ABSENT)
}

// The instance whose trees have the parents shown before a vertex, and a lower one there.
fn with_lower(p: Problem, s: Shown, vertex: u32) -> Problem {
    let parent = access::byte(&s.parents, vertex);
    let mut q = p;
    for v in 0..MAX_VERTICES {
        if v < vertex && v != p.root {
            q = q.with_mark(access::byte(&s.parents, v), v, PINNED);
        }
        if parent <= v && p.is_arc(v, vertex) {
            q = q.with_mark(v, vertex, BANNED);
        }
    }
    q
}

// Whether they are all dearer.
fn is_first_at(p: Problem, s: Shown, vertex: u32) -> bool {
    exact::proved_total(with_lower(p, s, vertex)).is_ok_and(|total| s.total < total)
}

fn tried_vertices(tally: Tally, table: &[u32; CELLS], p: Problem, s: Shown) -> Tally {
    let mut t = tally;
    for v in 0..MAX_VERTICES {
        if has_lower(table, access::byte(&s.parents, v), v) {
            t = t.checked(VERTICES, is_first_at(p, s, v));
        }
    }
    t
}

// The first vertex where two looks show other parents, or the number of vertices.
fn parting(s: Shown, other: Shown) -> u32 {
    (0..MAX_VERTICES)
        .find(|&v| access::byte(&s.parents, v) != access::byte(&other.parents, v))
        .unwrap_or(MAX_VERTICES)
}

// Another cheapest tree in the place of the one shown: the tree of a look with an arc of it banned, where that costs no
// more. The cuts prove it cheapest too, but it is not the first, which has to be reported.
fn with_other_tree(tally: Tally, table: &[u32; CELLS], p: Problem, s: Shown, vertex: u32) -> Tally {
    let tail = access::byte(&s.parents, vertex);
    if p.mark_of(tail, vertex) != FREE {
        return tally;
    }
    let without = exact::look_at(p.with_mark(tail, vertex, BANNED));
    if without.kind == outcome::NONE || without.total != s.total {
        return tally;
    }
    let mut other = s;
    let parents = without.parents;
    other.parents = parents;
    let is_cheapest = verdict::certified(table, p.n, p.root, other).is_ok();
    tally.planted(is_cheapest && !is_first_at(p, other, parting(s, other)))
}

// A look under a budget of 0, which is over unless the tree costs nothing; then every vertex, and other trees.
fn tried(tally: Tally, p: Problem, g: Random) -> Tally {
    let s = exact::look_at(p);
    let table = p.costs();
    let proved = verdict::certified(&table, p.n, p.root, s).is_ok();
    let t = tally.checked(INSTANCES, proved && s.kind != outcome::NONE);
    let u = tried_vertices(t, &table, p, s);
    let h = g.next();
    let v = with_other_tree(u, &table, p, s, g.below(MAX_VERTICES));
    let w = with_other_tree(v, &table, p, s, h.below(MAX_VERTICES));
    with_other_tree(w, &table, p, s, h.next().below(MAX_VERTICES))
}

fn run(count: u32) -> Tally {
    (0..count).fold(
        Tally::zero(),
        |t, k| tried(t, families::nth_tied(k), Random::seeded(k)),
    )
}

pub fn all() {
    run(16).report(b"instances of 32 with many cheapest trees\nvertices with a lower tail\n");
}
