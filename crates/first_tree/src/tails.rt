// The tails that an arc of reduced cost 0 comes from, for each head, as sets.
ghost use Rattle.std.specs.Prelude.{◌≡◌, ◌≤◌, ◌<◌, length};
ghost use Rattle.instance.specs.Limits.{max_vertices, cells};
ghost use Rattle.first_tree.specs.Tails.{tight, tight_set, TightTails};

use checks::arc::is_arc;
use instance::limits::{CELLS, VERTICES};

fn is_tight(
    m: &[u32; CELLS],
    reduced: &[u32; CELLS],
    n: u32,
    root: u32,
    tail: u32,
    head: u32,
) -> bool
    requires { (n ≤ max_vertices) × (tail < n) × (head < n) }
    ensures { result ≡ tight m.now reduced.now n root tail head }
{
    if reduced[(32 * tail + head) as usize] != 0 {
        return false;
    }
    is_arc(m, n, root, tail, head)
}

fn tails_into(m: &[u32; CELLS], reduced: &[u32; CELLS], n: u32, root: u32, head: u32) -> u32
    requires { (n ≤ max_vertices) × (head < n) }
    ensures { result ≡ tight_set m.now reduced.now n root n head }
{
    let mut set: u32 = 0;
    for t in 0..n {
        if is_tight(m, reduced, n, root, t, head) {
            set += 1u32 << t;
        }
    }
    set
}

pub fn tight_tails(m: &[u32; CELLS], reduced: &[u32; CELLS], n: u32, root: u32) -> [u32; VERTICES]
    requires { n ≤ max_vertices }
    ensures { TightTails m.now reduced.now n root result }
{
    let mut tails = [0u32; VERTICES];
    for head in 0..n {
        tails[head as usize] = tails_into(m, reduced, n, root, head);
    }
    tails
}
