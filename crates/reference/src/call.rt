// The calls that change a board, and random ones with arguments inside and outside their ranges.
use crate::group;
use crate::problem::{MAX_BUDGET, MAX_VERTICES, Problem};
use crate::random::Random;

// The kinds of a call; the last three are those of a group press (02, A5).
#[derive(Clone, Copy, PartialEq, Eq)]
pub enum Kind {
    Pin,
    Ban,
    Clear,
    Budget,
    TakeBack,
    PinGroup,
    BanGroup,
    ClearGroup,
}

impl Kind {
    pub fn is_group(self) -> bool {
        matches!(self, Kind::PinGroup | Kind::BanGroup | Kind::ClearGroup)
    }

    // The single press that sets the mark of a group press.
    pub fn single(self) -> Kind {
        match self {
            Kind::PinGroup => Kind::Pin,
            Kind::BanGroup => Kind::Ban,
            _ => Kind::Clear,
        }
    }

    // README's number of the kind for a list of calls, where 5 looks and 6 writes.
    pub fn number(self) -> u8 {
        match self {
            Kind::Pin => 0,
            Kind::Ban => 1,
            Kind::Clear => 2,
            Kind::Budget => 3,
            Kind::TakeBack => 4,
            Kind::PinGroup => 7,
            Kind::BanGroup => 8,
            Kind::ClearGroup => 9,
        }
    }

    // The kind with that number, if it changes a board.
    pub fn of_number(number: u8) -> Option<Kind> {
        match number {
            0 => Some(Kind::Pin),
            1 => Some(Kind::Ban),
            2 => Some(Kind::Clear),
            3 => Some(Kind::Budget),
            4 => Some(Kind::TakeBack),
            7 => Some(Kind::PinGroup),
            8 => Some(Kind::BanGroup),
            9 => Some(Kind::ClearGroup),
            _ => None,
        }
    }
}

// The two vertices of a mark; or the tail of a group and the set of its heads; or a budget, in first.
#[derive(Clone, Copy)]
pub struct Call {
    pub kind: Kind,
    pub first: u32,
    pub second: u32,
}

impl Call {
    pub fn new(kind: Kind, first: u32, second: u32) -> Call {
        Call {
            kind,
            first,
            second,
        }
    }

    pub fn take_back() -> Call {
        Call::new(Kind::TakeBack, 0, 0)
    }

    pub fn budget(budget: u32) -> Call {
        Call::new(Kind::Budget, budget, 0)
    }
}

// A vertex, now and then n or more.
fn some_vertex(g: Random, n: u32) -> u32 {
    match g.below(64) {
        0 => 4294967295,
        1 => MAX_VERTICES,
        2 => n,
        _ => g.next().below(n),
    }
}

// A budget, small, in range, at the limit or above it.
fn some_budget(g: Random) -> u32 {
    match g.below(8) {
        0 => MAX_BUDGET,
        1 => MAX_BUDGET + 1,
        2 => 4294967295,
        3 => g.next().below(MAX_BUDGET + 1000000),
        _ => g.next().below(60),
    }
}

// A kind; of 16 calls back are take-backs.
fn some_kind(g: Random, back: u32) -> Kind {
    if g.below(16) < back {
        return Kind::TakeBack;
    }
    match g.next().below(7) {
        0 => Kind::Pin,
        1 => Kind::Ban,
        2 => Kind::Clear,
        3 => Kind::PinGroup,
        4 => Kind::BanGroup,
        5 => Kind::ClearGroup,
        _ => Kind::Budget,
    }
}

// A group press of a kind on a board with that instance.
pub fn some_group(g: Random, p: Problem, kind: Kind) -> Call {
    let tail = some_vertex(g, p.n);
    Call::new(kind, tail, group::some_set(g.next().next(), p, tail))
}

// A call on a board with that instance.
pub fn some_call(g: Random, p: Problem, back: u32) -> Call {
    let kind = some_kind(g, back);
    let after = g.next().next();
    if kind == Kind::Budget {
        return Call::budget(some_budget(after));
    }
    if kind.is_group() {
        return some_group(after, p, kind);
    }
    Call::new(
        kind,
        some_vertex(after, p.n),
        some_vertex(after.next().next(), p.n),
    )
}

// The generator after a call was drawn, which takes six steps.
pub fn drawn(g: Random) -> Random {
    g.next().next().next().next().next().next()
}
