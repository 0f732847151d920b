// What a listing gave: the planner's call, the reference's walk, and the reference's listing of all choices.
use board::Board;
use harness::buffers;
use reference::problem::{CELLS, Problem};
use reference::walk::Ended;
use reference::{access, trees, walk};

// The buffer has room for every tree of five positions, and for 64 of 32. So much of it is lent as a call says.
pub const ROOM: usize = 2048;

// How the walk ended, and the numbers of trees and tries.
#[derive(Clone, Copy, PartialEq, Eq)]
pub struct Listed {
    pub ended: Option<Ended>,
    pub trees: u32,
    pub tries: u32,
}

// That, or the number of the refusal; and the buffer.
#[derive(Clone, Copy, PartialEq, Eq)]
pub struct Given {
    pub listed: Result<Listed, u32>,
    pub bytes: [u8; ROOM],
}

impl Given {
    // The number of trees, and of tries; 0 of a refusal.
    pub fn trees(&self) -> u32 {
        self.listed.map_or(0, |l| l.trees)
    }

    pub fn tries(&self) -> u32 {
        self.listed.map_or(0, |l| l.tries)
    }
}

// A result with a buffer that nothing was put into.
pub fn untouched(listed: Result<Listed, u32>) -> Given {
    Given {
        listed,
        bytes: [buffers::BYTE; ROOM],
    }
}

fn of_end(e: planner::Ended) -> Ended {
    match e {
        planner::Ended::Complete => Ended::Complete,
        planner::Ended::AtLimit => Ended::AtLimit,
        planner::Ended::NoRoom => Ended::NoRoom,
    }
}

pub fn by_planner(b: Board, limit: u32, room: u32) -> Given {
    let mut bytes = [buffers::BYTE; ROOM];
    let l = planner::list_plans(b, limit, access::front_mut(&mut bytes, room as usize));
    let listed = match l {
        Ok(listing) => Ok(Listed {
            ended: Some(of_end(listing.ended)),
            trees: listing.trees,
            tries: listing.tries,
        }),
        Err(refusal) => Err(u32::from(refusal)),
    };
    Given { listed, bytes }
}

pub fn by_reference(table: &[u32; CELLS], p: Problem, limit: u32, room: u32) -> Given {
    let mut bytes = [buffers::BYTE; ROOM];
    let w = walk::list(
        table,
        p.n,
        p.root,
        p.budget,
        limit,
        access::front_mut(&mut bytes, room as usize),
    );
    let listed = w.map(|w| Listed {
        ended: w.ended,
        trees: w.trees,
        tries: w.tries,
    });
    Given { listed, bytes }
}

// A complete walk of at most five positions, with no walk made: the trees of the listing of all choices, and the tries
// by their definition.
pub fn by_choices(table: &[u32; CELLS], p: Problem) -> Given {
    let mut bytes = [buffers::BYTE; ROOM];
    let trees = trees::put_within(table, p.n, p.root, p.budget, &mut bytes);
    let listed = Ok(Listed {
        ended: Some(Ended::Complete),
        trees,
        tries: trees::all_tries(table, p.n, p.root),
    });
    Given { listed, bytes }
}
