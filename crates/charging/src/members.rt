// The vertices of a group as a set.

ghost use Rattle.std.specs.Prelude.{◌≤◌, ◌<◌};
ghost use Rattle.instance.specs.Limits.{max_vertices};
ghost use Rattle.charging.specs.Members.{Members};

use instance::Vertex;
use instance::limits::VERTICES;

// One bit for each vertex of the group.
pub fn members(label: &[u8; VERTICES], n: usize, g: Vertex) -> u32
    requires { (n ≤ max_vertices) × (g.0 < n) }
    ensures { Members label.now n g.0 result }
{
    let group = g.0 as u8;
    let mut set: u32 = 0;
    for v in 0..n {
        if label[v] == group {
            set += 1u32 << v;
        }
    }
    set
}
