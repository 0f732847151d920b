// Results with one fault planted. The comparison has to report each of them, or the test could not fail.
use harness::buffers;
use harness::calls::Shown;
use reference::random::Random;
use reference::shown::{CUT_WORDS, NO_PARENT};
use reference::{access, trees};

pub fn with_parent(shown: Shown, vertex: u32, parent: u32) -> Shown {
    let mut s = shown;
    s.parents[vertex as usize % buffers::PARENTS] = access::narrow(parent);
    s
}

// Another tree in the place of the one shown.
pub fn with_tree(shown: Shown, tree: [u8; trees::PARENTS], n: u32) -> Shown {
    let mut s = shown;
    access::put(&mut s.parents, 0, access::front(&tree, n as usize));
    s
}

fn with_word(shown: Shown, at: u32) -> Shown {
    let mut s = shown;
    let k = at as usize % buffers::CUTS;
    s.cuts[k] = s.cuts[k].wrapping_add(1);
    s
}

pub fn with_state(shown: Shown, at: u32) -> Shown {
    let mut s = shown;
    let k = at as usize % buffers::STATES;
    s.states[k] = (s.states[k] % 4 + 1) % 4;
    s
}

// An amount raised, a parent at the root, another kind, one pair more, a byte or a word touched past the end, a state
// changed.
pub fn with_fault(shown: Shown, n: u32, root: u32, g: Random) -> Shown {
    let mut s = shown;
    match g.below(7) {
        0 => return with_word(s, 1),
        1 => return with_parent(s, root, 0),
        2 => s.kind = s.kind.wrapping_add(1) % 3,
        3 => s.pairs = s.pairs.wrapping_add(1),
        4 => return with_parent(s, n, 0),
        5 => return with_word(s, CUT_WORDS),
        _ => return with_state(s, g.next().below(n.wrapping_mul(n))),
    }
    s
}

// No tree, as for an outcome without one.
pub fn without_tree(shown: Shown, n: u32) -> Shown {
    let mut s = shown;
    access::front_mut(&mut s.parents, n as usize).fill(NO_PARENT);
    s
}

// Every arc closed.
pub fn all_closed(shown: Shown) -> Shown {
    let mut s = shown;
    for state in &mut s.states {
        if *state == 2 || *state == 3 {
            *state = 1;
        }
    }
    s
}
