// A list of calls handed to the planner whole.
use crate::calls::Shown;
use crate::{buffers, calls};
use reference::access;
use reference::card::Card;

// How many calls a list has.
pub const CALLS: usize = 300;

// Their kinds, and the two numbers of each.
#[derive(Clone, Copy)]
pub struct Calls {
    pub kinds: [u8; CALLS],
    pub firsts: [u32; CALLS],
    pub seconds: [u32; CALLS],
}

// How much is lent of each list and each buffer.
#[derive(Clone, Copy)]
pub struct Rooms {
    pub firsts: u32,
    pub seconds: u32,
    pub answers: u32,
    pub parents: u32,
    pub states: u32,
    pub cuts: u32,
}

// All of it.
pub fn whole() -> Rooms {
    Rooms {
        firsts: CALLS as u32,
        seconds: CALLS as u32,
        answers: CALLS as u32,
        parents: buffers::PARENTS as u32,
        states: buffers::STATES as u32,
        cuts: buffers::CUTS as u32,
    }
}

#[derive(Clone, Copy)]
pub struct Replayed {
    pub shown: Shown,
    pub answers: [u32; CALLS],
}

pub fn replay(c: Card, list: Calls, rooms: Rooms) -> Replayed {
    let mut answers = [buffers::WORD; CALLS];
    let mut parents = [buffers::BYTE; buffers::PARENTS];
    let mut states = [buffers::BYTE; buffers::STATES];
    let mut cuts = [buffers::WORD; buffers::CUTS];
    let v = planner::replay(
        c.as_slice(),
        &list.kinds,
        access::front(&list.firsts, rooms.firsts as usize),
        access::front(&list.seconds, rooms.seconds as usize),
        access::front_mut(&mut answers, rooms.answers as usize),
        access::front_mut(&mut parents, rooms.parents as usize),
        access::front_mut(&mut states, rooms.states as usize),
        access::front_mut(&mut cuts, rooms.cuts as usize),
    );
    Replayed {
        shown: calls::as_shown(v, parents, states, cuts),
        answers,
    }
}
