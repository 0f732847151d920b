// Plans four instances with root 0 and prints a line for each: document 01's sheet Q, cycles nested as deep as 32
// vertices allow, entered once at the innermost and once at the outermost vertex, and the same cycles with no arc from
// the root. The tree's weights are added here, and printed beside the total that comes with the plan.
#![tactic(auto)]

ghost use Rattle.std.specs.Prelude.{◌≡◌, ◌≤◌, ◌<◌, length};
ghost use Rattle.instance.specs.Limits.{max_vertices, cells};
ghost use Rattle.instance.specs.Matrix.{Weights};

use edmonds::plan_matrix;
use instance::Vertex;
use instance::limits::{CELLS, CUT_WORDS, NO_ARC, VERTICES};

fn put_arc(w: &mut [u32; CELLS], tail: usize, head: usize, weight: u32)
    requires { (length w.old ≡ cells) × Weights w.old }
    ensures { (length w.new ≡ cells) × Weights w.new }
{
    if tail < VERTICES {
        if head < VERTICES {
            if weight <= NO_ARC {
                w[VERTICES * tail + head] = weight;
            }
        }
    }
}

// "0→1 10, 0→2 10, 0→3 8, 1→2 1, 1→3 4, 2→1 2, 2→3 9, 3→1 7"
fn put_q(w: &mut [u32; CELLS])
    requires { (length w.old ≡ cells) × Weights w.old }
    ensures { (length w.new ≡ cells) × Weights w.new }
{
    put_arc(w, 0, 1, 10);
    put_arc(w, 0, 2, 10);
    put_arc(w, 0, 3, 8);
    put_arc(w, 1, 2, 1);
    put_arc(w, 1, 3, 4);
    put_arc(w, 2, 1, 2);
    put_arc(w, 2, 3, 9);
    put_arc(w, 3, 1, 7);
}

// Vertices 1 to 31, each entered from the one before and from the one after: the cycle of 1 and 2 is contracted first,
// then that of the group with 3, and so on.
fn put_cycles(w: &mut [u32; CELLS])
    requires { (length w.old ≡ cells) × Weights w.old }
    ensures { (length w.new ≡ cells) × Weights w.new }
{
    put_arc(w, 2, 1, 1);
    put_arc(w, 1, 2, 1);
    let mut v: usize = 3;
    while v < VERTICES {
        put_arc(w, v - 1, v, 1);
        put_arc(w, v, v - 1, 2);
        v += 1;
    }
}

fn tree_total(w: &[u32; CELLS], parents: &[u8; VERTICES], n: usize) -> u64
    requires { n ≤ max_vertices }
{
    let mut total: u64 = 0;
    let mut v: usize = 0;
    while v < n {
        let p = wide(parents[v]);
        if p < VERTICES {
            total += wide32(w[VERTICES * p + v]);
        }
        v += 1;
    }
    total
}

fn wide(x: u8) -> usize {
    x as usize
}

fn wide32(x: u32) -> u64
    ensures { result < 4294967296 }
{
    x as u64
}

fn show(w: [u32; CELLS], n: usize)
    requires { (n ≤ max_vertices) × (0 < n) × Weights w }
{
    let mut lowered = w;
    let mut cuts = [0u32; CUT_WORDS];
    match plan_matrix(&mut lowered, n, Vertex(0), &mut cuts) {
        Ok(plan) => {
            io::write_all(1, b"total ");
            io::print_decimal(1, tree_total(&w, &plan.parents, n));
            io::write_all(1, b", cuts ");
            io::print_decimal(1, wide32(plan.count));
            io::write_all(1, b" of value ");
            io::print_decimal(1, wide32(plan.total));
        }
        Err(unreached) => {
            io::write_all(1, b"none, set ");
            io::print_decimal(1, wide32(unreached.set));
        }
    }
    io::write_all(1, b"\n");
}

fn main() {
    let mut q = [NO_ARC; CELLS];
    put_q(&mut q);
    io::write_all(1, b"sheet Q: ");
    show(q, 4);

    let mut inner = [NO_ARC; CELLS];
    put_cycles(&mut inner);
    put_arc(&mut inner, 0, 1, 40);
    io::write_all(1, b"cycles entered at the innermost vertex: ");
    show(inner, VERTICES);

    let mut outer = [NO_ARC; CELLS];
    put_cycles(&mut outer);
    put_arc(&mut outer, 0, 31, 40);
    io::write_all(1, b"cycles entered at the outermost vertex: ");
    show(outer, VERTICES);

    let mut shut = [NO_ARC; CELLS];
    put_cycles(&mut shut);
    io::write_all(1, b"cycles with no way in: ");
    show(shut, VERTICES);
}
