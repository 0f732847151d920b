// Lists of calls as the tests keep them, and a part of one handed over: put as presses into an array, whose front is
// lent.
use crate::lent;
use crate::lent::{LONGEST, ListAnswered};
use board::Board;
use planner::{Command, Mark, Press, Vertex};
use reference::call::{Call, Kind};

// After so many calls a list begins anew. Enough for the 200 records and for as many take-backs.
pub const PERIOD: usize = 400;

// The calls of a period, and one that stands at a place of its own.
#[derive(Clone, Copy)]
pub struct List {
    pub calls: [Call; PERIOD],
    pub other_at: u32,
    pub other: Call,
}

// A place that no list reaches.
const NOWHERE: u32 = 4294967295;

// Take-backs alone.
pub fn take_backs() -> List {
    let back = Call::take_back();
    List {
        calls: [back; PERIOD],
        other_at: NOWHERE,
        other: back,
    }
}

// The list with another call at one place.
pub fn with_other(list: List, at: u32, other: Call) -> List {
    let calls = list.calls;
    List {
        calls,
        other_at: at,
        other,
    }
}

pub fn nth(list: List, k: u32) -> Call {
    if k == list.other_at {
        return list.other;
    }
    list.calls[k as usize % PERIOD]
}

fn command_of(c: Call) -> Command {
    let first = c.first;
    let heads = c.second;
    let tail = Vertex(first);
    let head = Vertex(heads);
    match c.kind {
        Kind::Pin => Command::SetMark(Mark::Pinned, tail, head),
        Kind::Ban => Command::SetMark(Mark::Banned, tail, head),
        Kind::Clear => Command::SetMark(Mark::Free, tail, head),
        Kind::Budget => Command::SetBudget(first),
        Kind::PinGroup => Command::SetMarks(Mark::Pinned, tail, heads),
        Kind::BanGroup => Command::SetMarks(Mark::Banned, tail, heads),
        Kind::ClearGroup => Command::SetMarks(Mark::Free, tail, heads),
        Kind::TakeBack => Command::TakeBack,
    }
}

fn press_of(c: Call) -> Press {
    Press {
        command: command_of(c),
    }
}

// So many calls of a list from a place on, handed over. Behind them stand take-backs, which nobody may look at.
pub fn handed(b: Board, list: List, from: u32, count: u32) -> ListAnswered {
    let last = press_of(Call::take_back());
    let mut presses = [last; LONGEST];
    for (place, k) in presses.iter_mut().zip(0..count) {
        *place = press_of(nth(list, from.wrapping_add(k)));
    }
    lent::pressed(b, presses, count as usize)
}
