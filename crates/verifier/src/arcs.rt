// What a plan is judged by: the weights of the remaining arcs, the number of vertices and the root.
ghost use Rattle.std.specs.Prelude.{◌≡◌, ◌≤◌, ◌<◌, length};
ghost use Rattle.instance.specs.Limits.{max_vertices, cells};

use instance::limits::CELLS;

#[derive(Clone, Copy)]
pub struct Arcs<'a> {
    pub weights: &'a [u32; CELLS],
    pub n: u32,
    pub root: u32,
    ghost small: { n ≤ max_vertices },
    ghost root_in: { root < n },
    ghost size: { length weights.now ≡ cells },
}
