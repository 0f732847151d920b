// The cuts of a plan made elsewhere: whether they are cuts, what they charge each remaining arc, and what they add to.
// Their values are any 32-bit numbers, so no sum of them is formed: what is left of a weight, or of the total, is
// counted down.
ghost use Rattle.std.specs.Prelude.{◌≡◌, ◌&&◌, ◌≤◌, ◌<◌, leb, eqb, length};
ghost use Rattle.instance.specs.Limits.{max_vertices, max_cuts};
ghost use Rattle.instance.specs.Arborescence.{if_remaining};
ghost use Rattle.instance.specs.Cuts.{charged, values, set_ok, sets_ok};
ghost use Rattle.certificate.specs.Certificate.{covered, none_overcharged};
ghost use Rattle.verifier.specs.Judged.{judged};
ghost use Rattle.verifier.specs.Pairs.{cuts_of};
ghost use Rattle.verifier.specs.Selected.{Selects, covered_into};

use crate::arcs::Arcs;
use checks::arc::is_arc;
use checks::sets::{is_below, is_entering, is_inside};
use instance::limits::MAX_CUTS;

const CUTS: usize = MAX_CUTS as usize;

// Whether a set is that of a cut: not empty, of the n vertices, without the root.
fn is_cut(arcs: &Arcs<'_>, set: u32) -> bool
    ensures { result ≡ set_ok (judged arcs.now) set }
{
    set != 0 && is_below(set, arcs.n) && !is_inside(set, arcs.root)
}

// Whether there are no more cuts than may be, and each is one.
pub fn are_cuts(arcs: &Arcs<'_>, cuts: &[[u32; 2]]) -> bool
    ensures { result ≡ leb (length cuts.now) max_cuts && sets_ok (judged arcs.now) (cuts_of cuts.now) }
{
    if CUTS < cuts.len() {
        return false;
    }
    for &[set, _] in cuts {
        if !is_cut(arcs, set) {
            return false;
        }
    }
    true
}

// Some of the cuts, in front.
#[derive(Clone, Copy)]
struct Selected {
    cuts: [[u32; 2]; CUTS],
    count: usize,
}

// The cuts that have a vertex: an arc into it enters no others. Most cuts have few vertices, so each arc is then held
// against few cuts.
fn cuts_with(cuts: &[[u32; 2]], vertex: u32) -> Selected
    requires { (vertex < max_vertices) × (length cuts.now ≤ max_cuts) }
    ensures { Selects cuts.now vertex result.cuts result.count }
{
    let mut selected = [[0; 2]; CUTS];
    let mut count = 0;
    for &[set, value] in cuts {
        if is_inside(set, vertex) {
            selected[count] = [set, value];
            count += 1;
        }
    }
    Selected {
        cuts: selected,
        count,
    }
}

// Whether the cuts charge an arc with at most its weight.
fn is_covered(cuts: &[[u32; 2]], tail: u32, head: u32, weight: u32) -> bool
    requires { (tail < max_vertices) × (head < max_vertices) }
    ensures { result ≡ leb (charged (cuts_of cuts.now) tail head) weight }
{
    let mut room = weight;
    for &[set, value] in cuts {
        if is_entering(set, tail, head) {
            if room < value {
                return false;
            }
            room -= value;
        }
    }
    true
}

// Whether the arc of a cell is charged with at most its weight, if the cell has one.
fn arc_covered(arcs: &Arcs<'_>, cuts: &[[u32; 2]], tail: u32, head: u32) -> bool
    ensures { result ≡ if_remaining (judged arcs.now) (covered (judged arcs.now) (cuts_of cuts.now)) tail head }
{
    if !is_arc(arcs.weights, arcs.n, arcs.root, tail, head) {
        return true;
    }
    let i = (32 * tail + head) as usize;
    is_covered(cuts, tail, head, arcs.weights[i])
}

// Whether no remaining arc into one head is charged above its weight by these cuts.
fn arcs_covered(arcs: &Arcs<'_>, cuts: &[[u32; 2]], head: u32) -> bool
    ensures { result ≡ covered_into (judged arcs.now) (cuts_of cuts.now) head }
{
    for tail in (0..arcs.n).rev() {
        if !arc_covered(arcs, cuts, tail, head) {
            return false;
        }
    }
    true
}

// Whether no remaining arc into one head is charged above its weight by all cuts: those that have the head decide.
fn head_covered(arcs: &Arcs<'_>, cuts: &[[u32; 2]], head: u32) -> bool
    requires { (head < arcs.now.n) × (length cuts.now ≤ max_cuts) }
    ensures { result ≡ covered_into (judged arcs.now) (cuts_of cuts.now) head }
{
    let selected = cuts_with(cuts, head);
    arcs_covered(arcs, &selected.cuts[..selected.count], head)
}

// Whether no remaining arc is charged above its weight.
pub fn all_covered(arcs: &Arcs<'_>, cuts: &[[u32; 2]]) -> bool
    requires { length cuts.now ≤ max_cuts }
    ensures { result ≡ none_overcharged (judged arcs.now) (cuts_of cuts.now) }
{
    for head in (0..arcs.n).rev() {
        if !head_covered(arcs, cuts, head) {
            return false;
        }
    }
    true
}

// Whether the values add to the total.
pub fn adds_to(cuts: &[[u32; 2]], total: u32) -> bool
    ensures { result ≡ eqb (values (cuts_of cuts.now)) total }
{
    let mut rest = total;
    for &[_, value] in cuts {
        if rest < value {
            return false;
        }
        rest -= value;
    }
    rest == 0
}
