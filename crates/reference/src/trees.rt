// All trees of an instance of at most six vertices, by listing every choice of a parent for each vertex; and by the
// same choices all tries that document 02, A7, counts.
ghost use Rattle.std.specs.Prelude.{◌<◌};

use crate::access::{byte, front, narrow, put};
use crate::problem::{ABSENT, CELLS};
use crate::shown;

// A listing has room for 8 vertices, more than it ever has: a parent for each, and a place for each arc between two.
const STRIDE: u32 = 8;

pub const PARENTS: usize = STRIDE as usize;

const ARCS: u32 = STRIDE * STRIDE;

// For each arc a total of trees that use it, and one of trees that do not.
pub const TOTALS: usize = 2 * ARCS as usize;

// How many trees there are, the total of the cheapest, the first and the last of the cheapest, and for each arc the
// cheapest total of a tree that uses it and of one that does not (at place). ABSENT, and 255 everywhere, where there is
// none.
#[derive(Clone, Copy)]
pub struct Listing {
    pub trees: u32,
    pub cheapest: u32,
    pub first: [u8; PARENTS],
    pub last: [u8; PARENTS],
    pub totals: [u32; TOTALS],
}

pub fn place(tail: u32, head: u32, uses: bool) -> usize
    ensures { result < 128 }
{
    let at = tail % STRIDE * STRIDE + head % STRIDE;
    if uses {
        return at as usize;
    }
    (at + ARCS) as usize
}

// How many choices there are: n to the power n - 1.
fn choices(n: u32) -> u32 {
    match n {
        1 => 1,
        2 => 2,
        3 => 9,
        4 => 64,
        5 => 625,
        6 => 7776,
        _ => 0,
    }
}

// The choice of a number: its digits to base n, one for each vertex but the root. 255 at every other vertex. The last
// vertex has the last digit, so the choices of ascending numbers ascend when compared vertex by vertex.
fn choice(number: u32, n: u32, root: u32) -> [u8; PARENTS] {
    let mut parents = [255; PARENTS];
    let mut rest = number;
    if n == 0 {
        return parents;
    }
    for k in 0..STRIDE {
        let v = STRIDE - 1 - k;
        if v < n && v != root {
            parents[v as usize] = narrow(rest % n);
            rest /= n;
        }
    }
    parents
}

// Whether one list of parents comes before another "when compared position by position": where they first differ, it
// has the lower one. (02, A10)
fn is_before(a: [u8; PARENTS], b: [u8; PARENTS]) -> bool {
    a < b
}

// The listing with the first and the last of its cheapest trees after one tree more. They are compared, so the order in
// which the trees come does not matter.
fn with_ends(list: Listing, parents: [u8; PARENTS], total: u32) -> Listing {
    let mut l = list;
    let cheaper = total < list.cheapest;
    let as_cheap = total == list.cheapest;
    if cheaper || as_cheap && is_before(parents, list.first) {
        l.first = parents;
    }
    if cheaper || as_cheap && is_before(list.last, parents) {
        l.last = parents;
    }
    l
}

// The listing with one tree more.
fn with_tree(list: Listing, parents: [u8; PARENTS], total: u32) -> Listing {
    let mut l = list;
    l.trees = l.trees.wrapping_add(1);
    l.cheapest = l.cheapest.min(total);
    for k in 0..ARCS {
        let parent = u32::from(parents[(k % STRIDE) as usize]);
        let at = place(k / STRIDE, k, parent == k / STRIDE);
        l.totals[at] = l.totals[at].min(total);
    }
    l
}

// The listing of an instance of 1 to 6 vertices, from the table of its remaining arcs.
pub fn list(table: &[u32; CELLS], n: u32, root: u32) -> Listing {
    let mut l = Listing {
        trees: 0,
        cheapest: ABSENT,
        first: [255; PARENTS],
        last: [255; PARENTS],
        totals: [ABSENT; TOTALS],
    };
    let count = choices(n);
    for number in 0..count {
        let parents = choice(number, n, root);
        let total = shown::tree_total(table, &parents, n, root);
        if total != ABSENT && shown::tree_spans(&parents, n, root) {
            l = with_tree(with_ends(l, parents, total), parents, total);
        }
    }
    l
}

// The trees of such an instance "within .. budget .. in ascending order of the feeder list, compared position by
// position" (02, A7), put into a buffer one after the other, and how many there are.
pub fn put_within(table: &[u32; CELLS], n: u32, root: u32, budget: u32, out: &mut [u8]) -> u32 {
    let mut trees = 0;
    let count = choices(n);
    for number in 0..count {
        let parents = choice(number, n, root);
        let total = shown::tree_total(table, &parents, n, root);
        let listed = if total <= budget && shown::tree_spans(&parents, n, root) {
            1
        } else {
            0
        };
        put(
            out,
            n.wrapping_mul(trees) as usize,
            front(&parents, n.wrapping_mul(listed) as usize),
        );
        trees = trees.wrapping_add(listed);
    }
    trees
}

// Whether a choice stands for a try at a vertex: the arcs into it and into all before it remain, and those before it
// close no ring, which is so where they make a tree with arcs from the root to all others, whether or not those remain.
// Of the choices that are alike up to the vertex one counts, that with the root after it.
fn is_try(table: &[u32; CELLS], choice: [u8; PARENTS], n: u32, root: u32, vertex: u32) -> bool {
    for v in vertex.wrapping_add(1)..n {
        if v != root && byte(&choice, v) != root {
            return false;
        }
    }
    if shown::tree_total(table, &choice, vertex.wrapping_add(1), root) == ABSENT {
        return false;
    }
    let mut before = choice;
    before[(vertex % STRIDE) as usize] = narrow(root);
    shown::tree_spans(&before, n, root)
}

// "The number of tries ..: one for each remaining link into the next position, for each ring-free beginning, whether or
// not the link closes a ring." (02, A7)
pub fn all_tries(table: &[u32; CELLS], n: u32, root: u32) -> u32 {
    if n == 0 {
        return 0;
    }
    (0..n.wrapping_mul(choices(n)))
        .filter(|&k| {
            let vertex = k % n;
            vertex != root && is_try(table, choice(k / n, n, root), n, root, vertex)
        })
        .count() as u32
}
