// The states of all cells, from the table of the arcs that some arborescence within the limit uses. An arborescence has
// one arc into each head, so a used arc is mandatory where it is the only used one into its head.
ghost use Rattle.std.specs.Prelude.{◌≡◌, ◌&&◌, not, cond, ◌*◌, ◌≤◌, ◌<◌, eqb, length};
ghost use Rattle.base.specs.Bounded.{count_below};
ghost use Rattle.base.specs.Lists.{in_front};
ghost use Rattle.instance.specs.Limits.{max_vertices, no_arc};
ghost use Rattle.usable.specs.Table.{is_used};
ghost use Rattle.instance.specs.StateNumbers.{state_number};
ghost use Rattle.states.specs.Show.{Counts, states_by};

use checks::arc::can_be_arc;
use instance::limits::{CELLS, NO_ARC, VERTICES};
use instance::states::State;

fn used_into(used: &[u8; CELLS], n: u32, head: u32) -> u32
    requires { (n ≤ max_vertices) × (head < max_vertices) }
    ensures { result ≡ count_below n (λ g. is_used used.now g head) }
{
    let mut count: u32 = 0;
    for g in 0..n {
        if used[(32 * g + head) as usize] == 1 {
            count += 1;
        }
    }
    count
}

fn counts_into(used: &[u8; CELLS], n: u32) -> [u32; VERTICES]
    requires { n ≤ max_vertices }
    ensures { Counts used.now n n result }
{
    let mut counts = [0u32; VERTICES];
    for head in 0..n {
        counts[head as usize] = used_into(used, n, head);
    }
    counts
}

// The state of a cell where an arc can be or not, with its weight, whether it is used, and the number of used arcs into
// its head.
fn state_of(possible: bool, weight: u32, used: u8, count: u32) -> State
    ensures { state_number result ≡ cond (possible && not (eqb weight no_arc)) (cond (eqb used 1) (cond (eqb count 1) 3 2) 1) 0 }
{
    if !possible || weight == NO_ARC {
        State::Absent
    } else if used != 1 {
        State::Excluded
    } else if count == 1 {
        State::Mandatory
    } else {
        State::Optional
    }
}

// The n times n states, tail by tail, at the front of the caller's buffer.
pub fn write_states(used: &[u8; CELLS], weights: &[u32; CELLS], n: u32, root: u32, out: &mut [u8])
    requires { (n ≤ max_vertices) × (n * n ≤ length out.old) }
    ensures { out.new ≡ in_front (states_by used.now weights.now n root) out.old }
{
    let counts = counts_into(used, n);
    let total = n * n;
    for k in 0..total {
        let tail = k / n;
        let head = k % n;
        let i = (32 * tail + head) as usize;
        let possible = can_be_arc(n, root, tail, head);
        let state = state_of(possible, weights[i], used[i], counts[head as usize]);
        out[k as usize] = u8::from(state);
    }
}
