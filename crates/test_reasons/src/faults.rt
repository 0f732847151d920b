// What a call gave, with one fault planted: the comparison has to report each of them.
use crate::calls::Given;
use crate::compared;
use harness::buffers;
use reference::outcome::NONE;
use reference::problem::CELLS;
use reference::random::Random;
use reference::shown::{CUT_WORDS, PAIRS};
use reference::tally::Tally;
use reference::{access, shown};
use reference_reasons::due::{Due, Reason};

// The kinds of a fault are numbers, no enum: they are gone through and counted in this order. Where their counts begin.
pub const FIRST_COUNT: u32 = 35;

// Of every result: another reason, and a byte or a word that was not to be touched.
const REASON: u32 = 0;

const BYTE: u32 = 1;

const WORD: u32 = 2;

// Of a refusal, of who set a mark, of a rival.
const ANSWER: u32 = 3;

const PLACE_MORE: u32 = 4;

const PLACE_LESS: u32 = 5;

const RIVAL: u32 = 6;

// Of a plan: another outcome, a total or a number of pairs that is one more; a vertex as its own parent; an amount that
// is one more, the root in a set, a word behind the pairs; the last of the cheapest trees for the first.
const OUTCOME: u32 = 7;

const TOTAL: u32 = 8;

const PAIRS_MORE: u32 = 9;

const PARENT: u32 = 10;

const AMOUNT: u32 = 11;

const SET: u32 = 12;

const BEHIND: u32 = 13;

const LAST_TREE: u32 = 14;

const KINDS: u32 = 15;

fn has_other_tree(d: Due, n: u32) -> bool {
    d.trees.is_some_and(|trees| !access::equal_fronts(&trees.first, &trees.last, n))
}

// Whether a result of this kind can have the fault.
fn applies(kind: u32, n: u32, d: Due, g: Given) -> bool {
    match (kind, g.reason) {
        (REASON | BYTE | WORD, _) => true,
        (ANSWER, Err(_)) => true,
        (PLACE_MORE | PLACE_LESS, Ok(Reason::Banned(_) | Reason::Rival(_, _))) => true,
        (RIVAL, Ok(Reason::Rival(_, _))) => true,
        (TOTAL, Ok(Reason::Priced(outcome, _))) => outcome != NONE,
        (BEHIND, Ok(Reason::Priced(_, _))) => g.pairs < PAIRS,
        (LAST_TREE, Ok(Reason::Priced(_, _))) => has_other_tree(d, n),
        (ANSWER | PLACE_MORE | PLACE_LESS | RIVAL, _) => false,
        (_, Ok(Reason::Priced(_, _))) => true,
        _ => false,
    }
}

fn with_byte(given: Given, at: u32, value: u32) -> Given {
    let mut g = given;
    g.parents[at as usize % buffers::PARENTS] = access::narrow(value);
    g
}

fn with_word(given: Given, at: u32, value: u32) -> Given {
    let mut g = given;
    g.cuts[at as usize % buffers::CUTS] = value;
    g
}

// The buffers from the first place on that was not to be touched.
fn with_touch(g: Given, n: u32, kind: u32, r: Random) -> Given {
    let filled = g.total().is_some();
    if kind == BYTE {
        let from = if filled { n } else { 0 };
        let rest = (buffers::PARENTS as u32).wrapping_sub(from);
        return with_byte(g, from.wrapping_add(r.below(rest)), 0);
    }
    let from = if filled { CUT_WORDS } else { 0 };
    let rest = (buffers::CUTS as u32).wrapping_sub(from);
    with_word(g, from.wrapping_add(r.below(rest)), 0)
}

// One word of a pair, or of the first place where there is none.
fn with_cut_fault(g: Given, root: u32, kind: u32, r: Random) -> Given {
    let set_at = r.below(g.pairs).wrapping_mul(2);
    let amount_at = set_at.wrapping_add(1);
    let behind = g.pairs.wrapping_mul(2);
    match kind {
        AMOUNT => with_word(
            g,
            amount_at,
            access::word(&g.cuts, amount_at).wrapping_add(1),
        ),
        SET => with_word(g, set_at, access::word(&g.cuts, set_at) | shown::only(root)),
        _ => with_word(g, behind, 1),
    }
}

fn with_last_tree(given: Given, d: Due, n: u32) -> Given {
    let mut g = given;
    if let Some(trees) = d.trees {
        access::put(&mut g.parents, 0, access::front(&trees.last, n as usize));
    }
    g
}

fn other_reason(reason: Result<Reason, u32>) -> Result<Reason, u32> {
    match reason {
        Ok(Reason::Banned(place)) => Ok(Reason::Rival(0, place)),
        Ok(Reason::Rival(_, _)) => Ok(Reason::Priced(0, 0)),
        Ok(Reason::Priced(_, _)) => Err(0),
        Err(_) => Ok(Reason::Banned(0)),
    }
}

// The place of who set a mark moved.
fn with_place(reason: Result<Reason, u32>, moved: u32) -> Result<Reason, u32> {
    match reason {
        Ok(Reason::Banned(place)) => Ok(Reason::Banned(place.wrapping_add(moved))),
        Ok(Reason::Rival(rival, place)) => Ok(Reason::Rival(rival, place.wrapping_add(moved))),
        _ => reason,
    }
}

// The result with another reason, or another number of its reason.
fn with_other_number(reason: Result<Reason, u32>, kind: u32) -> Result<Reason, u32> {
    match (kind, reason) {
        (REASON, _) => other_reason(reason),
        (ANSWER, Err(answer)) => Err(answer.wrapping_add(1)),
        (PLACE_MORE, _) => with_place(reason, 1),
        (PLACE_LESS, _) => with_place(reason, 4294967295),
        (RIVAL, Ok(Reason::Rival(rival, place))) => Ok(Reason::Rival(rival.wrapping_add(1), place)),
        (OUTCOME, Ok(Reason::Priced(outcome, total))) => Ok(Reason::Priced(
            (outcome % 3 + 1) % 3,
            total,
        )),
        (TOTAL, Ok(Reason::Priced(outcome, total))) => Ok(Reason::Priced(
            outcome,
            total.wrapping_add(1),
        )),
        _ => reason,
    }
}

fn with_fault(given: Given, d: Due, n: u32, root: u32, kind: u32, r: Random) -> Given {
    let vertex = r.below(n);
    let mut g = given;
    match kind {
        BYTE | WORD => return with_touch(g, n, kind, r),
        PARENT => return with_byte(g, vertex, vertex),
        AMOUNT | SET | BEHIND => return with_cut_fault(g, root, kind, r),
        LAST_TREE => return with_last_tree(g, d, n),
        PAIRS_MORE => g.pairs = given.pairs.wrapping_add(1),
        _ => g.reason = with_other_number(given.reason, kind),
    }
    g
}

// A result held to what it has to be, and then with each fault.
pub fn tried(
    tally: Tally,
    which: u32, // what it is counted as
    table: &[u32; CELLS], // the weights of the remaining arcs that it is judged over
    n: u32,
    root: u32,
    d: Due,
    g: Given,
    r: Random, // where the faults are planted
) -> Tally {
    tally
        .checked(which, compared::is_right(table, n, root, d, g))
        .with_faults(
            FIRST_COUNT,
            KINDS,
            |kind| applies(kind, n, d, g),
            |kind| compared::is_right(table, n, root, d, with_fault(g, d, n, root, kind, r)),
        )
}
