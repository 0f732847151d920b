// The search for a cycle: "the search stops at the first ring it meets". Walks follow the chosen arcs backwards and
// stamp the groups that they come by; a walk that comes to a stamp of its own has closed a cycle.

ghost use Rattle.std.specs.Prelude.{IfSome, IfNone};
ghost use Rattle.cycles.specs.Cycle.{Searchable, Met, NoCycle};

use super::groups::Groups;
use instance::Vertex;
use instance::limits::VERTICES;

// A group on the cycle, and the stamps: the groups of the cycle are those stamped no earlier than it.
#[derive(Clone, Copy)]
pub struct Cycle {
    pub at: Vertex,
    pub stamp: [u8; VERTICES],
}

pub fn find_cycle(groups: Groups) -> Option<Cycle>
    requires { Searchable groups.label.now groups.tails.now groups.n groups.root.0 }
    ensures some { IfSome result (λ c. Met groups.entry.label.now groups.entry.tails.now c.stamp groups.entry.n groups.entry.root.0 c.at.0) }
    ensures none { IfNone result (NoCycle groups.entry.label.now groups.entry.tails.now groups.entry.n groups.entry.root.0) }
{
    let label = groups.label;
    let tails = groups.tails;
    let n = groups.n;
    let r = groups.root.0 as usize;
    let top = label[r] as usize;
    let mut stamp = [0u8; VERTICES];
    let mut now: u8 = 1;
    let mut found = None;
    'starts: for s in 0..n {
        let g = label[s] as usize;
        if g == s {
            let first = now;
            let mut v = s;
            while v != top {
                let met = stamp[v];
                if first <= met {
                    found = Some(Vertex(v as u32));
                    break 'starts;
                }
                if 0 < met {
                    break;
                }
                stamp[v] = now;
                now += 1;
                let t = tails[v] as usize;
                v = label[t] as usize;
            }
        }
    }
    let at = found?;
    Some(Cycle { at, stamp })
}
