// A call, with as much of its lists and buffers as is handed over; what it gave, and what the reference says that it
// should give.
use crate::buffers::ROOM;
use instance::Outcome;
use instance::refusals::Refusal;
use reference::access;
use reference_runs::costs::Costs;
use reference_runs::{answers, costs, places};

#[derive(Clone, Copy)]
pub struct Call {
    pub n: u32,
    pub budget: u32,
    pub weights: [u32; ROOM],
    pub marks: [u8; ROOM],
    pub weights_length: u32,
    pub marks_length: u32,
    pub states_length: u32,
    pub replacements_length: u32,
}

// The outcomes, and REFUSED for none of them: numbers, no enum, as they are counted and written in the script.
pub const PLAN: u32 = 0;

pub const OVER: u32 = 1;

pub const NO_TREE: u32 = 2;

pub const REFUSED: u32 = 3;

// The refusal or 0; the outcome with its total or 0; and the buffers. In what should be given every run has its
// replacement cost, whether or not the tree uses it.
#[derive(Clone, Copy)]
pub struct Shown {
    pub answer: u32,
    pub outcome: u32,
    pub total: u32,
    pub states: [u8; ROOM],
    pub replacements: [u32; ROOM],
}

// The same weight and mark in every place of the lists, and so much of lists and buffers handed over.
pub fn even(n: u32, weight: u32, mark: u8, room: u32) -> Call {
    Call {
        n,
        budget: 0,
        weights: [weight; ROOM],
        marks: [mark; ROOM],
        weights_length: room,
        marks_length: room,
        states_length: room,
        replacements_length: room,
    }
}

// The call with another weight and mark in a cell, and in both cells of a pair.
pub fn with_cell(c: Call, cell: u32, weight: u32, mark: u8) -> Call {
    let mut d = c;
    let at = cell as usize % ROOM;
    d.weights[at] = weight;
    d.marks[at] = mark;
    d
}

pub fn with_pair(c: Call, cell: u32, weight: u32, mark: u8) -> Call {
    let d = with_cell(c, cell, weight, mark);
    with_cell(d, places::mirror(c.n, cell), weight, mark)
}

fn states_before() -> [u8; ROOM] {
    let mut states = [0; ROOM];
    for (state, k) in states.iter_mut().zip(0usize..) {
        *state = (k % 128) as u8 + 128;
    }
    states
}

fn replacements_before() -> [u32; ROOM] {
    let mut replacements = [0; ROOM];
    for (replacement, value) in replacements.iter_mut().zip(2863311530u32..) {
        *replacement = value;
    }
    replacements
}

// The buffers as they are before a call: every place differs from the next, and holds what no call puts there.
pub fn untouched(answer: u32, outcome: u32, total: u32) -> Shown {
    Shown {
        answer,
        outcome,
        total,
        states: states_before(),
        replacements: replacements_before(),
    }
}

// The result with another state and replacement cost in a cell.
pub fn with_result(s: Shown, cell: u32, state: u8, replacement: u32) -> Shown {
    let mut f = s;
    let at = cell as usize % ROOM;
    f.states[at] = state;
    f.replacements[at] = replacement;
    f
}

fn numbers(view: Result<Outcome, Refusal>) -> Shown {
    match view {
        Ok(Outcome::Plan(total)) => untouched(0, PLAN, total),
        Ok(Outcome::Over(total)) => untouched(0, OVER, total),
        Ok(Outcome::NoTree) => untouched(0, NO_TREE, 0),
        Err(refusal) => untouched(u32::from(refusal), REFUSED, 0),
    }
}

pub fn by_product(c: Call) -> Shown {
    let before = untouched(0, 0, 0);
    let mut states = before.states;
    let mut replacements = before.replacements;
    let view = runs::plan_runs(
        access::front(&c.weights, c.weights_length as usize),
        access::front(&c.marks, c.marks_length as usize),
        c.n,
        c.budget,
        access::front_mut(&mut states, c.states_length as usize),
        access::front_mut(&mut replacements, c.replacements_length as usize),
    );
    let shown = numbers(view);
    Shown {
        answer: shown.answer,
        outcome: shown.outcome,
        total: shown.total,
        states,
        replacements,
    }
}

// "States and replacement prices fill the first n times n places".
fn filled(s: Shown, n: u32, costs: Costs) -> Shown {
    let count = places::cells(n) as usize;
    let mut f = s;
    access::put(&mut f.states, 0, access::front(&costs.states, count));
    access::put(
        &mut f.replacements,
        0,
        access::front(&costs.replacements, count),
    );
    f
}

fn costs_of(weights: &[u32], marks: &[u8], c: &Call, is_listed: bool) -> Costs {
    if is_listed {
        costs::by_listing(weights, marks, c.n, c.budget)
    } else {
        costs::by_kruskal(weights, marks, c.n, c.budget)
    }
}

// By all spanning trees of a small graph, or by Kruskal's algorithm.
pub fn expected(c: Call, is_listed: bool) -> Shown {
    let w = access::front(&c.weights, c.weights_length as usize);
    let m = access::front(&c.marks, c.marks_length as usize);
    if let Err(answer) = answers::check(w, m, c.n, c.states_length, c.replacements_length) {
        return untouched(answer, REFUSED, 0);
    }
    let costs = costs_of(w, m, &c, is_listed);
    let shown = match costs.least {
        None => untouched(0, NO_TREE, 0),
        Some(total) if total <= c.budget => untouched(0, PLAN, total),
        Some(total) => untouched(0, OVER, total),
    };
    filled(shown, c.n, costs)
}
