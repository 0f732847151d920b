// Random lists of calls, made beside the log, so that it can be chosen how many of them are refused.
use crate::lists;
use crate::lists::{List, PERIOD};
use reference::call;
use reference::call::Call;
use reference::history::RECORDS;
use reference::log::Log;
use reference::random::Random;

// A list takes a seed for each of its calls; so many more are there for what is done with it.
const SEEDS: u32 = 1024;

// The first seed of a list.
pub fn nth_seed(k: u32) -> u32 {
    k % 4096 * SEEDS
}

// How a list is made.
#[derive(Clone, Copy)]
pub struct Style {
    pub presses: u32, // so many calls at the start are presses, all of them accepted
    pub back: u32, // of 16 calls after them so many are take-backs
    pub kept: u32, // of 16 calls after them that the log refuses so many are kept
    pub wound_up: bool, // whether the last calls take back all that stands
}

// A call that the log accepts where so many presses stand.
fn some_accepted(count: u32, g: Random) -> Call {
    if count < RECORDS as u32 {
        return Call::budget(g.below(60));
    }
    Call::take_back()
}

// A call, which is replaced if the log refuses it and it is not kept.
fn some_call(log: Log, g: Random, back: u32, kept: u32) -> Call {
    let c = call::some_call(g, log.card, back);
    if log.note(c).is_ok() {
        return c;
    }
    let h = call::drawn(g);
    if h.below(16) < kept {
        return c;
    }
    some_accepted(log.standing(), h.next())
}

fn nth_call(log: Log, g: Random, style: Style, k: u32) -> Call {
    if style.wound_up && PERIOD as u32 <= log.standing().wrapping_add(k) {
        return Call::take_back();
    }
    if k < style.presses {
        return some_call(log, g, 0, 0);
    }
    some_call(log, g, style.back, style.kept)
}

// A list for a board where that log stands.
pub fn some_list(start: Log, style: Style, seed: u32) -> List {
    let mut list = lists::take_backs();
    let mut log = start;
    for k in 0..PERIOD as u32 {
        let g = Random::seeded(seed.wrapping_add(k));
        let c = nth_call(log, g, style, k);
        log = log.note(c).unwrap_or(log);
        list.calls[k as usize] = c;
    }
    list
}
