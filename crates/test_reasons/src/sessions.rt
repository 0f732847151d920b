// Boards that are asked about: opened from random cards, some of them with records, and after random calls, each of
// which is kept in the log too.
use harness::session::Session;
use harness::{replies, session};
use reference::call::Call;
use reference::problem::Problem;
use reference::random::Random;
use reference::tally::Tally;
use reference::{call, history_sample};

// What is counted on the way.
pub const BOARDS: u32 = 3;

pub const RECORDS: u32 = 4;

const CALLS: u32 = 5;

const ACCEPTED: u32 = 6;

const GROUPS: u32 = 7;

const RECORDS_BACK: u32 = 8;

// Where the calls have come to.
#[derive(Clone, Copy)]
pub struct Progress {
    pub session: Session,
    pub tally: Tally,
}

// A board from the card of an instance, every third with some records.
fn opened(tally: Tally, p: Problem, k: u32, g: Random) -> Progress {
    let t = tally.with(BOARDS, 1);
    if k % 3 != 2 {
        return Progress {
            session: session::opened(p),
            tally: t,
        };
    }
    let count = g.below(9);
    let h = history_sample::some_history(p, count, k.wrapping_mul(256));
    Progress {
        session: session::opened_with(p, h),
        tally: t.with(RECORDS, h.count),
    }
}

// One call, whose answer is the log's.
fn called(p: Progress, c: Call) -> Progress {
    let before = p.session;
    let made = session::with_call(before, c);
    let answer = made.log_answer;
    let t = p
        .tally
        .checked(CALLS, replies::is_reply(made.reply, answer));
    let u = t.with(ACCEPTED, u32::from(answer == 0));
    let v = u.with(GROUPS, u32::from(answer == 0 && c.kind.is_group()));
    Progress {
        session: made.session,
        tally: v.with(RECORDS_BACK, u32::from(session::reaches_card(before, c))),
    }
}

// The k-th board, after some calls.
pub fn nth(tally: Tally, p: Problem, k: u32, length: u32) -> Progress {
    let seed = Random::seeded(k.wrapping_add(500000));
    let mut progress = opened(tally, p, k, seed);
    let mut g = seed.next();
    for step in 0..length {
        let c = call::some_call(g, p, 3);
        progress = called(progress, c);
        g = call::drawn(g);
    }
    progress
}
