// One level of contraction: "a closed ring of positions is drawn together and the smaller sheet is planned". Each call
// has fewer groups.

ghost use Rattle.std.specs.Prelude.{◌≡◌, ◌+◌, ◌≤◌, ◌<◌, set as set_at, IfOk, IfErr};
ghost use Rattle.instance.specs.Limits.{max_vertices, max_cuts};
ghost use Rattle.charging.specs.Charge.{Unentered};
ghost use Rattle.edmonds.specs.Level.{Plannable, Solution};

use charging::charge::{Unreached, charge_group};
use cycles::contract::contracted_labels;
use cycles::cycle::find_cycle;
use cycles::groups::Groups;
use expansion::{expand_cycle, own_parents};
use instance::limits::{CELLS, CUT_WORDS, VERTICES};
use instance::{CutIndex, Vertex};

// A tree of the groups by its parents, with the place of the next cut.
#[derive(Clone, Copy)]
pub struct GroupTree {
    pub parents: [u8; VERTICES],
    pub next: CutIndex,
}

// The ends of the chosen arcs, with another one at the group g.
fn replaced(ends: &[u8; VERTICES], g: Vertex, v: Vertex) -> [u8; VERTICES]
    requires { (g.0 < max_vertices) × (v.0 < max_vertices) }
    ensures { result ≡ set_at ends.now g.0 v.0 }
{
    let place = g.0 as usize;
    let mut copy = *ends;
    copy[place] = v.0 as u8;
    copy
}

// Plans groups of which each but the root's has chosen an arc of weight 0.
pub fn plan_groups(
    w: &mut [u32; CELLS], // the weights, less what was charged so far
    groups: Groups, // the groups, each with its arc
    left: u32, // there are at most so many groups: it falls at each call
    c: CutIndex, // the place of the next cut
    cuts: &mut [u32; CUT_WORDS], // where the cuts go
) -> Result<GroupTree, Unreached>
    requires { Plannable w.old groups.label.now groups.tails.now groups.heads.now groups.n groups.root.0 left × (c.0 + left ≤ max_cuts + 2) }
    ensures ok { IfOk result (λ r. Solution w.old w.new groups.entry.label.now groups.entry.n groups.entry.root.0 left c.0 cuts.entry.now cuts.exit.now r.parents r.next.0) }
    ensures err { IfErr result (λ e. Unentered groups.entry.n groups.entry.root.0 w.old e.set) }
{
    let Some(cycle) = find_cycle(groups) else {
        return Ok(GroupTree {
            parents: own_parents(groups),
            next: c,
        });
    };
    let coarse = contracted_labels(groups, &cycle);
    let chosen = charge_group(w, &coarse, groups.n, cycle.at, c, cuts)?;
    let tails2 = replaced(groups.tails, cycle.at, chosen.tail);
    let heads2 = replaced(groups.heads, cycle.at, chosen.head);
    let contracted = Groups {
        label: &coarse,
        tails: &tails2,
        heads: &heads2,
        ..groups
    };
    let mut tree = plan_groups(w, contracted, left - 1, chosen.next, cuts)?;
    expand_cycle(groups, &cycle, &mut tree.parents);
    Ok(tree)
}
