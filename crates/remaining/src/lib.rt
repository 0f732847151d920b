// The matrix of the remaining arcs. Two passes: the pins into each head are summed up once, then each cell is judged by
// itself.
#![tactic(auto)]

pub mod pins; // pins.rt: the pins into each head

ghost use Rattle.std.specs.Prelude.{◌≡◌, ◌&&◌, not, cond, ◌≤◌, eqb};
ghost use Rattle.instance.specs.Limits.{max_vertices, no_arc, banned};
ghost use Rattle.instance.specs.Instance.{without_budget};
ghost use Rattle.instance.specs.Matrix.{matrix};
ghost use Rattle.remaining.specs.Pins.{allows};

use checks::arc::can_be_arc;
use instance::limits::{BANNED, CELLS, NO_ARC};
use pins::{Pin, pin_table};

// The weight of a cell whose arc remains, by its mark and the pins into its head.
fn remaining_weight(weight: u32, mark: u8, pin: Pin, tail: u32) -> u32
    ensures { result ≡ cond (not (eqb mark banned) && allows pin tail) weight no_arc }
{
    if mark != BANNED && pin.allows(tail) {
        weight
    } else {
        NO_ARC
    }
}

// The weights of the remaining arcs, and no arc elsewhere.
pub fn remaining_matrix<'a>(
    weights: &'a [u32; CELLS],
    marks: &'a [u8; CELLS],
    n: u32,
    root: u32,
) -> [u32; CELLS]
    requires { (n ≤ max_vertices) }
    ensures { result ≡ matrix (without_budget n root weights.now marks.now) }
{
    let pins = pin_table(weights, marks, n, root);
    let mut w = [NO_ARC; CELLS];
    for i in 0..CELLS {
        let tail = (i / 32) as u32;
        let head = i % 32;
        if can_be_arc(n, root, tail, head as u32) {
            w[i] = remaining_weight(weights[i], marks[i], pins[head], tail);
        }
    }
    w
}
