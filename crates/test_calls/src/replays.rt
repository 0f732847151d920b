// A list of 300 calls, looks and writes handed to the planner whole, with a plain card or one with records, against the
// log; and what is refused before anything is touched.
use harness::replays::{CALLS, Calls, Replayed, Rooms};
use harness::{buffers, calls, replays, verdict};
use reference::call::{Call, Kind};
use reference::card::Card;
use reference::history::History;
use reference::log::Log;
use reference::problem::Problem;
use reference::random::Random;
use reference::refusals::{BAD_LENGTH, BUFFER_SHORT, number_of};
use reference::shown::CUT_WORDS;
use reference::tally::Tally;
use reference::{access, call, card, history_card, history_sample, sample};

// What the program counts beside the faults.
const REPLAYED: u32 = 3;

const REFUSED: u32 = 4;

const RECORDS: u32 = 5;

// Kinds of a look and a write, beside those of the calls that change a board. Every kind from ten on writes too.
const LOOK: u8 = 5;

const WRITE: u8 = 6;

const WRITES_FROM: u32 = 10;

// Of 32 calls one looks and one writes.
fn kind_or_between(g: Random, kind: Kind) -> u8 {
    match g.below(64) {
        0 | 1 => LOOK,
        2 => WRITE,
        3 => access::narrow(WRITES_FROM.wrapping_add(g.next().below(246))),
        _ => kind.number(),
    }
}

fn some_list(seed: Random, p: Problem, back: u32) -> Calls {
    let mut l = Calls {
        kinds: [0; CALLS],
        firsts: [0; CALLS],
        seconds: [0; CALLS],
    };
    let mut g = seed;
    for k in 0..CALLS {
        let c = call::some_call(g, p, back);
        g = call::drawn(g);
        l.kinds[k] = kind_or_between(g, c.kind);
        l.firsts[k] = c.first;
        l.seconds[k] = c.second;
        g = g.next().next();
    }
    l
}

// The list with one call changed, so that its answer is another: a vertex that is not there, or a budget above the
// limit.
fn with_other_call(list: Calls, at: u32) -> Calls {
    let mut l = list;
    let k = at as usize % CALLS;
    let other = if l.kinds[k] == Kind::Budget.number() {
        Kind::Pin
    } else {
        Kind::Budget
    };
    l.kinds[k] = other.number();
    l.firsts[k] = 4294967295;
    l
}

// The log after a part of a list, and whether every answer was the log's; looks and writes answer 0.
#[derive(Clone, Copy)]
struct Reading {
    log: Log,
    right: bool,
}

fn after_call(r: Reading, kind: u8, first: u32, second: u32, answer: u32) -> Reading {
    let Some(kind) = Kind::of_number(kind) else {
        return Reading {
            log: r.log,
            right: r.right && answer == 0,
        };
    };
    let noted = r.log.note(Call::new(kind, first, second));
    Reading {
        log: noted.unwrap_or(r.log),
        right: r.right && answer == number_of(noted),
    }
}

fn read(list: Calls, answers: [u32; CALLS], p: Problem, h: History) -> Reading {
    let mut r = Reading {
        log: Log::opened(p, h),
        right: true,
    };
    for k in 0..CALLS {
        r = after_call(
            r,
            list.kinds[k],
            list.firsts[k],
            list.seconds[k],
            answers[k],
        );
    }
    r
}

// Whether a replay gave the log's answers to a list, and a last look at what the log says.
fn is_right(r: Replayed, list: Calls, p: Problem, h: History) -> bool {
    let reading = read(list, r.answers, p, h);
    reading.right && verdict::judged(reading.log.problem_now(), r.shown).is_ok()
}

// Whether a replay was refused with this answer and touched nothing.
fn is_refused(r: Replayed, answer: u32) -> bool {
    let shown = r.shown;
    shown.kind == calls::REFUSED
        && shown.answer == answer
        && verdict::all_untouched(shown)
        && buffers::words_untouched(&r.answers, 0, CALLS as u32)
}

// One list or one buffer too short by one, the others whole.
fn one_short(which: u32, n: u32) -> Rooms {
    let mut l = replays::whole();
    match which {
        0 => l.firsts = CALLS as u32 - 1,
        1 => l.seconds = CALLS as u32 - 1,
        2 => l.answers = CALLS as u32 - 1,
        3 => l.parents = n.wrapping_sub(1),
        4 => l.states = n.wrapping_mul(n).wrapping_sub(1),
        _ => l.cuts = CUT_WORDS - 1,
    }
    l
}

// Each of them is refused with 14, and taken for another refusal it is reported.
fn tried_short(tally: Tally, c: Card, list: Calls, n: u32) -> Tally {
    let mut t = tally;
    for which in 0..6 {
        let r = replays::replay(c, list, one_short(which, n));
        t = t.checked(REFUSED, is_refused(r, BUFFER_SHORT));
        t = t.planted(!is_refused(r, BAD_LENGTH));
    }
    t
}

// A card that is too long is refused with its own number, even where a list is too short.
fn tried_refused(tally: Tally, c: Card, list: Calls, n: u32) -> Tally {
    let mut d = c;
    d.length = c.length.wrapping_add(1);
    let r = replays::replay(d, list, one_short(n, n));
    tally.checked(REFUSED, is_refused(r, BAD_LENGTH))
}

// A list from a card, and the same with one call changed, which has to be reported; then the refusals.
fn tried(tally: Tally, c: Card, p: Problem, h: History, list: Calls, at: u32) -> Tally {
    let other = with_other_call(list, at);
    let whole = replays::whole();
    let t = tally.checked(
        REPLAYED,
        is_right(replays::replay(c, list, whole), list, p, h),
    );
    let u = t.planted(!is_right(replays::replay(c, other, whole), list, p, h));
    tried_refused(tried_short(u, c, list, p.n), c, list, p.n)
}

// Whether a list takes back a record of the card.
fn reaches_record(list: Calls, p: Problem, h: History) -> bool {
    let end = read(list, [0; CALLS], p, h);
    end.log.below.count != h.count
}

// A list that takes back much from a card with records. Where it takes back one of them, the same card without its
// records has to be reported: that take-back, if nothing before it, has another answer.
fn tried_records(tally: Tally, p: Problem, h: History, g: Random) -> Tally {
    let c = history_card::build(p, h);
    let list = some_list(g, p, 11);
    let t = tally.with(RECORDS, h.count);
    let u = tried(t, c, p, h, list, g.below(CALLS as u32));
    if !reaches_record(list, p, h) {
        return u;
    }
    let bare = replays::replay(card::build(p), list, replays::whole());
    u.planted(!is_right(bare, list, p, h))
}

// So many lists are for a plain card, and as many as follow for a card with records, some with 200.
const PLAIN: u32 = 105;

const RECORDED: u32 = 48;

fn tried_nth(tally: Tally, k: u32) -> Tally {
    let p = sample::small_instance(k);
    let g = Random::seeded(k);
    if k < PLAIN {
        let list = some_list(g, p, 4);
        return tried(
            tally,
            card::build(p),
            p,
            History::empty(),
            list,
            g.below(CALLS as u32),
        );
    }
    let count = history_sample::nth_count(k / 6, g);
    tried_records(
        tally,
        p,
        history_sample::some_history(p, count, k % 4096 * 256),
        g,
    )
}

fn run(count: u32) -> Tally {
    (0..count).fold(Tally::zero(), |t, k| tried_nth(t, k))
}

pub fn all() {
    run(PLAIN + RECORDED).report(b"lists of 300 handed over\nrefused\nrecords on the cards\n");
}
