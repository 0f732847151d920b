// Single presses on the members of a group, in random order and with repetitions.
use board::Board;
use harness::calls;
use reference::call::Call;
use reference::problem::MAX_VERTICES;
use reference::random::Random;
use reference::refusals::{NO_SUCH_ARC, NO_VERTEX};
use reference::shown;

// The board after single presses, and how many there were, how many of them accepted and how many refused with 9.
#[derive(Clone, Copy)]
pub struct Singles {
    pub board: Board,
    pub pressed: u32,
    pub accepted: u32,
    pub no_vertex: u32,
}

// One single press more, with the mark of the group.
fn pressed(s: Singles, c: Call, head: u32) -> Singles {
    let b = s.board;
    let single = Call::new(c.kind.single(), c.first, head);
    let made = calls::made(b, single);
    let after = made.board;
    Singles {
        board: after,
        pressed: s.pressed.wrapping_add(1),
        accepted: s.accepted.wrapping_add(u32::from(made.answer == 0)),
        no_vertex: s
            .no_vertex
            .wrapping_add(u32::from(made.answer == NO_VERTEX)),
    }
}

// The first 32 are any, the next 32 are each of them once, in an order that a number gives.
fn nth_head(order: u32, k: u32, g: Random) -> u32 {
    if k < MAX_VERTICES {
        return g.below(MAX_VERTICES);
    }
    let odd = order / 32 % 16 * 2 + 1;
    order.wrapping_add(k.wrapping_mul(odd)) % MAX_VERTICES
}

// Every member is pressed at least once.
pub fn singles_for(b: Board, c: Call, seed: Random) -> Singles {
    let mut s = Singles {
        board: b,
        pressed: 0,
        accepted: 0,
        no_vertex: 0,
    };
    let mut g = seed.next();
    for k in 0..2 * MAX_VERTICES {
        let head = nth_head(seed.word(), k, g);
        if shown::holds(c.second, head) {
            s = pressed(s, c, head);
        }
        g = g.next();
    }
    s
}

// The answer to a group whose members were pressed singly: 9 if one of them got it, 10 if none was accepted.
pub fn answer_due(s: Singles, n: u32, tail: u32) -> u32 {
    if n <= tail || 0 < s.no_vertex {
        return NO_VERTEX;
    }
    if s.accepted == 0 { NO_SUCH_ARC } else { 0 }
}
