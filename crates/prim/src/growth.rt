// A tree grown from vertex 0. A vertex in the tree is settled and has its parent; a vertex outside has for its parent
// the settled vertex that is nearest by key. The nearest vertex outside is settled next, until none is left.
ghost use Rattle.std.specs.Prelude.{◌≡◌, ◌≤◌, ◌<◌, true, length, set};
ghost use Rattle.instance.specs.Limits.{max_vertices};
ghost use Rattle.prim.specs.Growth.{outside_key, TailsBelow, Picked, is_closer, Joined, Grows};

use crate::keys::NO_KEY;
use instance::limits::{CELLS, NO_PARENT, VERTICES};

// The tree so far.
#[derive(Drop)]
struct Growth {
    n: u32,
    settled: [bool; VERTICES],
    parents: [u8; VERTICES],
    ghost small: { n ≤ max_vertices },
    ghost tails: { TailsBelow n settled parents },
}

impl Growth {
    // The key of the edge from a vertex outside to its parent, and more than any key for a settled vertex.
    fn outside_key(&self, keys: &[u32; CELLS], v: u32) -> u32
        requires { v < self.now.n }
        ensures { result ≡ outside_key keys.now self.now.settled self.now.parents v }
    {
        if self.settled[v as usize] {
            return NO_KEY + 1;
        }
        let tail = self.parents[v as usize] as u32;
        keys[(32 * tail + v) as usize]
    }

    // The vertex outside that is nearest.
    fn pick(&self, keys: &[u32; CELLS]) -> Option<u32>
        ensures { Picked keys.now self.now.settled self.now.parents self.now.n result }
    {
        let mut best = None;
        let mut least = NO_KEY + 1;
        for v in 0..self.n {
            let key = self.outside_key(keys, v);
            if key < least {
                least = key;
                best = Some(v);
            }
        }
        best
    }

    // Whether a vertex is outside and nearer to v than to its parent.
    fn is_closer(&self, keys: &[u32; CELLS], v: u32, w: u32) -> bool
        requires { (v < self.now.n) × (w < self.now.n) }
        ensures { result ≡ is_closer keys.now self.now.settled self.now.parents v w }
    {
        let tail = self.parents[w as usize] as u32;
        !self.settled[w as usize] && keys[(32 * v + w) as usize] < keys[(32 * tail + w) as usize]
    }

    // Settles v, and gives it to the vertices outside that it is nearest to.
    fn settle(&mut self, keys: &[u32; CELLS], v: u32)
        requires { v < self.old.n }
        ensures n { self.new.n ≡ self.old.n }
        ensures settled { self.new.settled ≡ set self.old.settled v true }
        ensures parents { Joined keys.now self.new.settled self.old.n v self.old.parents self.new.parents }
    {
        self.settled[v as usize] = true;
        for w in 0..self.n {
            if self.is_closer(keys, v, w) {
                self.parents[w as usize] = v as u8;
            }
        }
    }
}

// The parents of a tree with every vertex.
pub fn grow(keys: &[u32; CELLS], n: u32) -> Option<[u8; VERTICES]>
    requires { (1 ≤ n) × (n ≤ max_vertices) }
    ensures { Grows keys.now n result }
{
    let mut settled = [false; VERTICES];
    settled[0] = true;
    let mut parents = [0; VERTICES];
    parents[0] = NO_PARENT;
    let mut tree = Growth {
        n,
        settled,
        parents,
    };
    while let Some(v) = tree.pick(keys) {
        if tree.outside_key(keys, v) == NO_KEY {
            return None;
        }
        tree.settle(keys, v);
    }
    Some(tree.parents)
}
