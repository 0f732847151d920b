// Charging a group: its cheapest entering arc is found, every arc that enters it is lowered by that weight, and the
// group is written down as a cut of that value. A weight of 0 gives no cut.

ghost use Rattle.std.specs.Prelude.{◌≡◌, ◌+◌, ◌*◌, ◌≤◌, ◌<◌, length, set as set_at, IfOk, IfErr, OnErr};
ghost use Rattle.instance.specs.Limits.{max_vertices, cells, max_cuts, cut_words};
ghost use Rattle.charging.specs.Charge.{ChargedGroup, UnenteredGroup};

use super::entering::{Entering, cheapest_arc};
use super::lower::lower_arcs;
use super::members::members;
use instance::limits::{CELLS, CUT_WORDS, VERTICES};
use instance::{CutIndex, Vertex};

// Writes a cut at its place.
fn put_cut(c: CutIndex, set: u32, value: u32, cuts: &mut [u32; CUT_WORDS])
    requires { c.0 < max_cuts }
    ensures { cuts.new ≡ set_at (set_at cuts.old (2 * c.0) set) (2 * c.0 + 1) value }
{
    let k = c.0 as usize;
    cuts[2 * k] = set;
    cuts[2 * k + 1] = value;
}

// The arc that a charged group chose, and the place of the next cut.
#[derive(Clone, Copy)]
pub struct Charged {
    pub tail: Vertex,
    pub head: Vertex,
    pub next: CutIndex,
}

// A set of vertices, not the root, that no arc enters: there is no arborescence.
#[derive(Clone, Copy, Debug, PartialEq, Eq)]
pub struct Unreached {
    pub set: u32,
}

// Charges a group for its cheapest entering arc. The cut, if there is one, goes to place c.
pub fn charge_group(
    w: &mut [u32; CELLS],
    label: &[u8; VERTICES],
    n: usize,
    g: Vertex,
    c: CutIndex,
    cuts: &mut [u32; CUT_WORDS],
) -> Result<Charged, Unreached>
    requires { (n ≤ max_vertices) × (g.0 < n) × (c.0 < max_cuts) }
    ensures ok { IfOk result (ChargedGroup w.old w.new label.now n g.0 c.0 cuts.old cuts.new) }
    ensures err { IfErr result (λ e. UnenteredGroup w.old label.now n g.0 e.set) }
    ensures err_leaves { OnErr result ((w.new ≡ w.old) × (cuts.new ≡ cuts.old)) }
{
    let Some(arc) = cheapest_arc(w, label, n, g) else {
        return Err(Unreached {
            set: members(label, n, g),
        });
    };
    let Entering { tail, head, weight } = arc;
    if weight == 0 {
        return Ok(Charged {
            tail,
            head,
            next: c,
        });
    }
    lower_arcs(w, label, n, g, weight);
    put_cut(c, members(label, n, g), weight, cuts);
    Ok(Charged {
        tail,
        head,
        next: CutIndex(c.0 + 1),
    })
}
