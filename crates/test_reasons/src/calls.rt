// The two calls, without their contracts, which no test needs, and with buffers longer than needed.
use board::Board;
use harness::buffers;
use instance::{Outcome, Vertex};
use planner::{Reason, View};
use reference::problem::ABSENT;
use reference::shown::CUT_WORDS;
use reference::{access, outcome};
use reference_reasons::due;

// What a call gave, with the reference's reasons, or the number of the refusal; then the number of pairs, and the
// buffers.
#[derive(Clone, Copy)]
pub struct Given {
    pub reason: Result<due::Reason, u32>,
    pub pairs: u32,
    pub parents: [u8; buffers::PARENTS],
    pub cuts: [u32; buffers::CUTS],
}

impl Given {
    // The total of a plan.
    pub fn total(&self) -> Option<u32> {
        match self.reason {
            Ok(due::Reason::Priced(_, total)) => Some(total),
            _ => None,
        }
    }
}

// Both calls on the same board and pair.
#[derive(Clone, Copy)]
pub struct Results {
    pub why: Given,
    pub without: Given,
}

fn new_given(reason: Result<due::Reason, u32>, pairs: u32) -> Given {
    Given {
        reason,
        pairs,
        parents: [buffers::BYTE; buffers::PARENTS],
        cuts: [buffers::WORD; buffers::CUTS],
    }
}

fn of_outcome(o: Outcome, pairs: u32) -> Given {
    let (kind, total) = match o {
        Outcome::Plan(total) => (outcome::PLAN, total),
        Outcome::Over(total) => (outcome::OVER, total),
        Outcome::NoTree => (outcome::NONE, ABSENT),
    };
    new_given(Ok(due::Reason::Priced(kind, total)), pairs)
}

fn of_reason(r: Reason) -> Given {
    match r {
        Reason::Banned(place) => new_given(Ok(due::Reason::Banned(place)), 0),
        Reason::Rival(rival, place) => new_given(Ok(due::Reason::Rival(rival.0, place)), 0),
        Reason::Priced(o, pairs) => of_outcome(o, pairs),
        Reason::Refused(answer) => new_given(Err(answer), 0),
    }
}

fn of_view(v: View) -> Given {
    match v {
        View::Shown(o, pairs) => of_outcome(o, pairs),
        View::Refused(answer) => new_given(Err(answer), 0),
    }
}

// Why, with the first so many bytes and words of the buffers lent.
fn why(b: Board, tail: u32, head: u32, parents_room: u32, cuts_room: u32) -> Given {
    let mut parents = [buffers::BYTE; buffers::PARENTS];
    let mut cuts = [buffers::WORD; buffers::CUTS];
    let r = planner::why(
        &b,
        Vertex(tail),
        Vertex(head),
        access::front_mut(&mut parents, parents_room as usize),
        access::front_mut(&mut cuts, cuts_room as usize),
    );
    let mut g = of_reason(r);
    g.parents = parents;
    g.cuts = cuts;
    g
}

// The plan without an arc, in the same way.
fn without(b: Board, tail: u32, head: u32, parents_room: u32, cuts_room: u32) -> Given {
    let mut parents = [buffers::BYTE; buffers::PARENTS];
    let mut cuts = [buffers::WORD; buffers::CUTS];
    let v = planner::plan_without(
        &b,
        Vertex(tail),
        Vertex(head),
        access::front_mut(&mut parents, parents_room as usize),
        access::front_mut(&mut cuts, cuts_room as usize),
    );
    let mut g = of_view(v);
    g.parents = parents;
    g.cuts = cuts;
    g
}

pub fn ask_with(b: Board, tail: u32, head: u32, parents_room: u32, cuts_room: u32) -> Results {
    Results {
        why: why(b, tail, head, parents_room, cuts_room),
        without: without(b, tail, head, parents_room, cuts_room),
    }
}

// With buffers that are just long enough, or longer.
pub fn ask(b: Board, tail: u32, head: u32, exact: bool) -> Results {
    if exact {
        return ask_with(b, tail, head, b.n, CUT_WORDS);
    }
    ask_with(b, tail, head, buffers::PARENTS as u32, buffers::CUTS as u32)
}
