// Document 02's own cases; small sheets, with limits and rooms about those that they need; boards with one thing
// changed, and limits that are refused.
use crate::given::{Given, Listed, ROOM};
use crate::{faults, given};
use board::Board;
use harness::{boards, buffers, changes};
use reference::problem::{CELLS, MAX_BUDGET, Problem};
use reference::random::Random;
use reference::refusals::{BAD_TRY_LIMIT, INVALID_BOARD};
use reference::tally::Tally;
use reference::walk::{Ended, MAX_TRIES};
use reference::{access, sample, trees, worked};

// A case of the documents, by the planner and by the reference: "Sheet Q at 16 lists 0 1 1, 2 0 1, 3 1 0 (positions 1
// to 3; the root's 255 is stored too)". The tree of one position is its 255 alone, which they begin with too.
fn tried_case(
    tally: Tally,
    p: Problem,
    limit: u32,
    room: u32,
    ended: Ended,
    trees: u32,
    tries: u32,
) -> Tally {
    let all = [255, 0, 1, 1, 255, 2, 0, 1, 255, 3, 1, 0];
    let mut expected = given::untouched(Ok(Listed {
        ended: Some(ended),
        trees,
        tries,
    }));
    let length = p.n.wrapping_mul(trees) as usize;
    access::put(&mut expected.bytes, 0, access::front(&all, length));
    let reference = given::by_reference(&p.costs(), p, limit, room);
    let planner = given::by_planner(boards::of_problem(p), limit, room);
    let which = faults::count_of(expected.listed);
    let t = faults::tried(tally, faults::DOCUMENTS, reference, expected, p.n);
    faults::tried(t, which, planner, expected, p.n)
}

// The trees of sheet Q at 16 are found at the tries 8, 13 and 22, counted by hand. "26 for a try limit of 0 or above
// 1,000,000", and so for one position, which takes no try.
fn documents(tally: Tally) -> Tally {
    let q = worked::q(16);
    let t = tried_case(tally, q, MAX_TRIES, ROOM as u32, Ended::Complete, 3, 24);
    let t = tried_case(t, q, 24, 12, Ended::Complete, 3, 24);
    let t = tried_case(t, q, 23, 12, Ended::AtLimit, 3, 23);
    let t = tried_case(t, q, 24, 11, Ended::NoRoom, 2, 22);
    let t = tried_case(t, q, 22, 11, Ended::NoRoom, 2, 22);
    let t = tried_case(t, q, 21, 11, Ended::AtLimit, 2, 21);
    let t = tried_case(t, q, 24, 0, Ended::NoRoom, 0, 8);
    let t = tried_case(t, q, 7, 0, Ended::AtLimit, 0, 7);
    let over = worked::q(14);
    let t = tried_case(t, over, 24, 0, Ended::Complete, 0, 24);
    let t = tried_case(t, over, 23, 12, Ended::AtLimit, 0, 23);
    let one = worked::without_arcs(1, 0, 0);
    let t = tried_case(t, one, 1, 1, Ended::Complete, 1, 0);
    let t = tried_case(t, one, MAX_TRIES, ROOM as u32, Ended::Complete, 1, 0);
    let t = tried_case(t, one, 1, 0, Ended::NoRoom, 0, 0);
    let b = boards::of_problem(q);
    let which = faults::BAD_LIMIT;
    let t = tried_refusal(t, which, b, 0, BAD_TRY_LIMIT);
    let t = tried_refusal(t, which, b, MAX_TRIES + 1, BAD_TRY_LIMIT);
    let t = tried_refusal(t, which, b, 4294967295, BAD_TRY_LIMIT);
    tried_refusal(t, which, boards::of_problem(one), 0, BAD_TRY_LIMIT)
}

// A refusal, with nothing touched.
fn tried_refusal(tally: Tally, which: u32, b: Board, limit: u32, answer: u32) -> Tally {
    faults::tried(
        tally,
        which,
        given::by_planner(b, limit, ROOM as u32),
        given::untouched(Err(answer)),
        b.n,
    )
}

// A board, a limit and a room, as the reference's walk has it.
pub fn tried_call(tally: Tally, table: &[u32; CELLS], b: Board, limit: u32, room: u32) -> Tally {
    let expected = given::by_reference(table, boards::problem_of(b), limit, room);
    let is_longest = expected.listed.is_ok_and(|l| l.tries == MAX_TRIES);
    faults::tried(
        tally.with(faults::LONGEST, u32::from(is_longest)),
        faults::count_of(expected.listed),
        given::by_planner(b, limit, room),
        expected,
        b.n,
    )
}

// Limits about the number of tries that a complete walk makes: that one, one below, one above; the ends; any other.
// Where there are few tries some are refused.
fn nth_limit(k: u32, tries: u32, g: Random) -> u32 {
    match k {
        0 => tries,
        1 => tries.wrapping_sub(1),
        2 => tries.wrapping_add(1),
        3 => 1,
        4 => MAX_TRIES,
        _ => g.below(tries).wrapping_add(1),
    }
}

// Rooms about the length of all trees: that one, a byte below, a tree less, none, more.
fn nth_room(k: u32, n: u32, trees: u32, g: Random) -> u32 {
    let length = n.wrapping_mul(trees);
    match k {
        0 => length,
        1 => length.wrapping_sub(1),
        2 => length.wrapping_sub(n),
        3 => 0,
        _ => length.wrapping_add(g.below(9).wrapping_add(1)),
    }
}

// Every limit with every room.
fn tried_calls(tally: Tally, table: &[u32; CELLS], b: Board, full: &Given, seed: Random) -> Tally {
    let mut t = tally;
    let mut g = seed;
    for k in 0u32..30 {
        let limit = nth_limit(k % 6, full.tries(), g);
        let room = nth_room(k / 6, b.n, full.trees(), g);
        t = tried_call(t, table, b, limit, room);
        g = g.next();
    }
    t
}

// A budget below the cheapest total, at it, at the limit, or one that some trees are within.
fn some_budget(g: Random, cheapest: u32) -> u32 {
    let kind = g.below(6);
    let budget = match kind {
        0 => cheapest.wrapping_sub(1),
        1 => cheapest,
        2 => MAX_BUDGET,
        _ => cheapest.wrapping_add(g.next().below(cheapest.wrapping_add(8))),
    };
    budget % (MAX_BUDGET + 1)
}

// A sheet of 1 to 5 positions: its walk is held to the listing of all choices, and every call to the walk.
fn tried_small(tally: Tally, k: u32) -> Tally {
    let g = Random::seeded(k);
    let q = sample::any_instance(g, k % 5 + 1);
    let table = q.costs();
    let list = trees::list(&table, q.n, q.root);
    let h = g.next().next().next();
    let p = q.with_budget(some_budget(h, list.cheapest));
    let full = given::by_reference(&table, p, MAX_TRIES, ROOM as u32);
    let t = faults::tried(
        tally.with(faults::SHEETS, 1),
        faults::CHOICES,
        full,
        given::by_choices(&table, p),
        p.n,
    );
    tried_calls(t, &table, boards::of_problem(p), &full, h)
}

// A board of 2 to 5 positions with one thing changed. Where that is damage: 15, which comes before 26. Otherwise as the
// reference has it, 26 too.
fn tried_change(tally: Tally, k: u32) -> Tally {
    let g = Random::seeded(k);
    let b = boards::of_problem(sample::any_instance(g, k % 4 + 2));
    let d = changes::nth_change(b, k % changes::KINDS, g);
    let c = d.board;
    if d.is_damaged {
        let t = tried_refusal(tally, faults::DAMAGED, c, MAX_TRIES, INVALID_BOARD);
        let t = tried_refusal(t, faults::DAMAGED, c, 0, INVALID_BOARD);
        return tried_refusal(t, faults::DAMAGED, c, MAX_TRIES + 1, INVALID_BOARD);
    }
    let table = boards::problem_of(c).costs();
    let t = tried_call(tally, &table, c, MAX_TRIES, ROOM as u32);
    let t = tried_call(t, &table, c, 0, ROOM as u32);
    tried_call(t, &table, c, MAX_TRIES + 1, ROOM as u32)
}

pub fn all(count: u32) -> Tally {
    let mut t = documents(Tally::zero());
    for k in 0..count {
        t = tried_small(t, k);
        t = tried_change(t, k);
    }
    t
}
