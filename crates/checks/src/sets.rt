// Sets of vertices as the bits of a number: whether a vertex is in one, whether an arc enters one, and whether all of
// one are below n.
ghost use Rattle.std.specs.Prelude.{◌≡◌, ◌^◌, ◌≤◌, ◌<◌, ltb};
ghost use Rattle.instance.specs.Limits.{max_vertices};
ghost use Rattle.instance.specs.Cuts.{inside, enters};

// Whether a vertex is in a set.
pub fn is_inside(set: u32, vertex: u32) -> bool
    requires { vertex < max_vertices }
    ensures { result ≡ inside set vertex }
{
    (set >> vertex) % 2 == 1
}

// Whether an arc enters a set.
pub fn is_entering(set: u32, tail: u32, head: u32) -> bool
    requires { (tail < max_vertices) × (head < max_vertices) }
    ensures { result ≡ enters set tail head }
{
    !is_inside(set, tail) && is_inside(set, head)
}

// Whether every vertex of a set is below n.
pub fn is_below(set: u32, n: u32) -> bool
    requires { n ≤ max_vertices }
    ensures { result ≡ ltb set (2 ^ n) }
{
    (set as u64) >> n == 0
}
