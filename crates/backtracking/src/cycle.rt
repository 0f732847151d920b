// Whether an arc closes a cycle.
ghost use Rattle.std.specs.Prelude.{◌≡◌, ◌≤◌, ◌<◌, take};
ghost use Rattle.instance.specs.Limits.{max_vertices};
ghost use Rattle.instance.specs.Arborescence.{reaches};

use instance::limits::VERTICES;

// Whether the path from t comes to v, where the vertices below v have parents: then an arc from t into v closes a
// cycle. A path ends at the first vertex that has none.
pub fn closes_cycle(parents: &[u8; VERTICES], n: u32, v: u32, t: u32) -> bool
    requires { (n ≤ max_vertices) × (v < n) }
    ensures { result ≡ reaches n v (take v parents.now) t }
{
    let mut at = t;
    for _ in 0..n {
        if v <= at {
            return at == v;
        }
        at = parents[at as usize] as u32;
    }
    at == v
}
