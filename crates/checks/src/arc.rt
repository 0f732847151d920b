// Where an arc can be, and where one is.
ghost use Rattle.std.specs.Prelude.{◌≡◌, ◌≤◌, length};
ghost use Rattle.instance.specs.Limits.{max_vertices, cells};
ghost use Rattle.instance.specs.Instance.{can_be_arc, is_arc};
ghost use Rattle.instance.specs.Matrix.{unmarked};

use instance::limits::{CELLS, NO_ARC};

// Whether there can be an arc from tail to head.
pub fn can_be_arc(n: u32, root: u32, tail: u32, head: u32) -> bool
    ensures { result ≡ can_be_arc n root tail head }
{
    if n <= tail || n <= head {
        return false;
    }
    tail != head && head != root
}

// Whether there is one.
pub fn is_arc(weights: &[u32; CELLS], n: u32, root: u32, tail: u32, head: u32) -> bool
    requires { (n ≤ max_vertices) × (length weights.now ≡ cells) }
    ensures { result ≡ is_arc (unmarked n root weights.now) tail head }
{
    can_be_arc(n, root, tail, head) && weights[(32 * tail + head) as usize] != NO_ARC
}
