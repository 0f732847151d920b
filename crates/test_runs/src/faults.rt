// Results with a fault planted, each of which the comparison has to report.
use crate::buffers::ROOM;
use crate::calls::{Call, Shown};
use crate::{calls, judging};
use reference::random::Random;
use reference::tally::Tally;
use reference_runs::answers::{BANNED, NO_RUN, PINNED};
use reference_runs::costs::NOT_IN_TREE;
use reference_runs::places;
use reference_runs::places::entry;

// The kinds of a fault are numbers, no enum: they are gone through and counted in this order. Where their counts begin.
const FIRST_COUNT: u32 = 12;

const ANSWER: u32 = 0;

const OUTCOME: u32 = 1;

const TOTAL: u32 = 2;

// A byte or a word of a buffer changed: of a refusal its first, or its last.
const STATE: u32 = 3;

const STATE_AFTER: u32 = 4;

const STATE_LAST: u32 = 5;

const WORD_FIRST: u32 = 6;

const WORD_AFTER: u32 = 7;

const WORD_LAST: u32 = 8;

// An edge of the tree with another replacement cost, or shown as outside the tree.
const ONE_WAY: u32 = 9;

const BOTH_WAYS: u32 = 10;

const LEFT_OUT: u32 = 11;

const LEFT_OUT_ONE_WAY: u32 = 12;

// A run outside the tree shown as in it; and that instead of an edge of another weight. Its replacement cost is 0.
const ADDED: u32 = 13;

const EXCHANGED: u32 = 14;

// The result held to a call that bans an edge of the tree, or pins a run outside it.
const BANNED_INSIDE: u32 = 15;

const PINNED_OUTSIDE: u32 = 16;

const KINDS: u32 = 17;

// The first cell of a run inside the tree or outside it whose weight is not that one.
fn find_run(s: Shown, c: Call, is_inside: bool, weight: u32) -> Option<u32> {
    (0..places::cells(c.n)).find(|&cell| {
        let w = entry(&c.weights, cell);
        places::is_upper(c.n, cell)
            && w != NO_RUN
            && w != weight
            && (entry(&s.replacements, cell) != NOT_IN_TREE) == is_inside
    })
}

// How many cells a result fills, and the runs that its faults are planted at: one of the tree, one outside it, and one
// outside it with another weight than the first.
#[derive(Clone, Copy)]
struct Runs {
    all: u32,
    inside: Option<u32>,
    outside: Option<u32>,
    unlike: Option<u32>,
}

fn runs_of(s: Shown, e: Shown, c: Call) -> Runs {
    if s.answer != 0 || e.answer != 0 {
        return Runs {
            all: 0,
            inside: None,
            outside: None,
            unlike: None,
        };
    }
    let inside = find_run(s, c, true, NO_RUN);
    let weight = inside.map_or(0, |cell| entry(&c.weights, cell));
    Runs {
        all: places::cells(c.n),
        inside,
        outside: find_run(s, c, false, NO_RUN),
        unlike: find_run(s, c, false, weight),
    }
}

fn applies(kind: u32, r: Runs) -> bool {
    match kind {
        ONE_WAY..=LEFT_OUT_ONE_WAY | BANNED_INSIDE => r.inside.is_some(),
        ADDED => r.outside.is_some(),
        EXCHANGED => r.inside.is_some() && r.unlike.is_some(),
        PINNED_OUTSIDE => r.inside.is_some() && r.outside.is_some(),
        _ => true,
    }
}

// The cell where a byte or a word is changed.
fn cell_of(kind: u32, n: u32, total: u32, r: Runs) -> u32 {
    let inside = r.inside.unwrap_or(0);
    match kind {
        STATE => Random::seeded(total).below(r.all),
        STATE_AFTER | WORD_AFTER => r.all,
        STATE_LAST | WORD_LAST => 1099,
        ONE_WAY => inside,
        LEFT_OUT_ONE_WAY => places::mirror(n, inside),
        _ => 0,
    }
}

// The replacement cost of a run put both ways.
fn with_cost(s: Shown, n: u32, cell: Option<u32>, value: u32) -> Shown {
    let at = cell.unwrap_or(0);
    let mut f = s;
    f.replacements[at as usize % ROOM] = value;
    f.replacements[places::mirror(n, at) as usize % ROOM] = value;
    f
}

fn with_tree_fault(s: Shown, n: u32, kind: u32, r: Runs) -> Shown {
    let cost = entry(&s.replacements, r.inside.unwrap_or(0));
    match kind {
        BOTH_WAYS => with_cost(s, n, r.inside, cost ^ 1),
        LEFT_OUT => with_cost(s, n, r.inside, NOT_IN_TREE),
        ADDED => with_cost(s, n, r.outside, 0),
        EXCHANGED => with_cost(with_cost(s, n, r.inside, NOT_IN_TREE), n, r.unlike, 0),
        _ => s,
    }
}

fn with_fault(s: Shown, n: u32, kind: u32, r: Runs) -> Shown {
    let mut f = s;
    let at = cell_of(kind, n, s.total, r) as usize % ROOM;
    match kind {
        ANSWER => f.answer ^= 1,
        OUTCOME => f.outcome ^= 1,
        TOTAL => f.total ^= 1,
        STATE..=STATE_LAST => f.states[at] ^= 1,
        WORD_FIRST..=ONE_WAY => f.replacements[at] ^= 1,
        LEFT_OUT_ONE_WAY => f.replacements[at] = NOT_IN_TREE,
        _ => f = with_tree_fault(s, n, kind, r),
    }
    f
}

// The call that a faulty result is held to.
fn call_of(c: Call, kind: u32, r: Runs) -> Call {
    let inside = r.inside.unwrap_or(0);
    let weight = entry(&c.weights, inside);
    match kind {
        BANNED_INSIDE => calls::with_cell(c, inside, weight, BANNED),
        PINNED_OUTSIDE => calls::with_cell(c, r.outside.unwrap_or(0), weight, PINNED),
        _ => c,
    }
}

// A result held to what it should be, and then with each kind of fault.
pub fn tried(tally: Tally, which: u32, s: Shown, e: Shown, c: Call) -> Tally {
    let r = runs_of(s, e, c);
    tally.checked(which, judging::is_right(s, e, c)).with_faults(
        FIRST_COUNT,
        KINDS,
        |kind| applies(kind, r),
        |kind| judging::is_right(with_fault(s, c.n, kind, r), e, call_of(c, kind, r)),
    )
}
