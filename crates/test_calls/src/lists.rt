// Random lists of calls on boards opened from cards, with looks and writes between, against the log: every answer, what
// a look shows, and the bytes of a written card, a plain one and a history card. The last of them begin on cards with
// records (02, A8).
use harness::session::Session;
use harness::{boards, calls, replies, session};
use reference::call::{Call, Kind};
use reference::history::History;
use reference::log::Log;
use reference::problem::{MAX_BUDGET, Problem};
use reference::random::Random;
use reference::refusals::number_of;
use reference::tally::Tally;
use reference::{call, history_sample, sample};

// What the program counts beside the faults: each answer has a count.
const LISTS: u32 = 3;

const CALLS: u32 = 4;

const GROUPS: u32 = 5;

const ACCEPTED: u32 = 6;

const LOOKS: u32 = 7;

const WRITES: u32 = 8;

const HISTORY_WRITES: u32 = 9;

const RECORDS: u32 = 10;

const RECORDS_BACK: u32 = 11;

const ANSWERS: u32 = 12;

// Where a list has come to, and what was counted on the way.
#[derive(Clone, Copy)]
struct Progress {
    session: Session,
    tally: Tally,
}

// The call of a step: in a crowded list the first ones are budgets, so that the 200 records are reached.
fn nth_call(g: Random, card: Problem, crowded: bool, step: u32) -> Call {
    if crowded {
        if step < 190 {
            return Call::budget(step);
        }
        return call::some_call(g, card, 2);
    }
    call::some_call(g, card, 5)
}

// Now and then a look or a write. They leave the board as it was.
fn between(tally: Tally, s: Session, dice: u32) -> Tally {
    let mut t = tally;
    if dice == 0 {
        t = t.checked(LOOKS, session::look_right(s));
        t = t.checked(HISTORY_WRITES, session::history_write_right(s));
    }
    if dice < 2 {
        t = t.checked(WRITES, session::write_right(s));
    }
    t
}

// Counts what kind of call was made, and the answer to it.
fn counted(tally: Tally, kind: Kind, answer: u32) -> Tally {
    let t = tally.with(ANSWERS.wrapping_add(answer), 1);
    if !kind.is_group() {
        return t;
    }
    let u = t.with(GROUPS, 1);
    if answer == 0 {
        return u.with(ACCEPTED, 1);
    }
    u
}

// One call, held to the log's answer and then to another, which has to be reported.
fn called(p: Progress, c: Call) -> Progress {
    let made = session::with_call(p.session, c);
    let reply = made.reply;
    let answer = made.log_answer;
    let t = p.tally.checked(CALLS, replies::is_reply(reply, answer));
    let u = t.planted(!replies::is_reply(reply, answer.wrapping_add(1)));
    Progress {
        session: made.session,
        tally: counted(u, c.kind, answer),
    }
}

// A take-back of a record of the card, in a log that does not know the record, and in one that strikes it out and
// restores nothing: what is answered, and what is written if the record changes something, has to be reported.
fn planted_record(tally: Tally, before: Session, after: Session) -> Tally {
    let known = before.log;
    let card = known.card;
    let unknown = Log::opened(card, History::empty()).note(Call::take_back());
    let back = calls::made(before.board, Call::take_back());
    let t = tally.planted(back.answer != number_of(unknown));
    let mut wrong = after;
    wrong.log = Log::opened(card, known.below.without_latest());
    if boards::alike_problems(&card, &session::problem_now(after)) {
        return t;
    }
    t.planted(!session::write_right(wrong))
}

// A call, and what has to be reported where it takes back a record of the card.
fn called_on_card(p: Progress, c: Call) -> Progress {
    let before = p.session;
    let mut after = called(p, c);
    if session::reaches_card(before, c) {
        let t = after.tally.with(RECORDS_BACK, 1);
        after.tally = planted_record(t, before, after.session);
    }
    after
}

// The call of a step, and what comes after it.
fn stepped(p: Progress, crowded: bool, seed: u32, step: u32) -> Progress {
    let g = Random::seeded(seed.wrapping_add(step));
    let card = session::card_of(p.session);
    let after = called_on_card(p, nth_call(g.next(), card, crowded, step));
    let s = after.session;
    Progress {
        session: s,
        tally: between(after.tally, s, g.below(20)),
    }
}

fn list_of_calls(start: Progress, crowded: bool, seed: u32, length: u32) -> Progress {
    let mut p = start;
    for step in 0..length {
        p = stepped(p, crowded, seed, step);
    }
    p
}

// Enough for the 200 records to be reached and for take-backs after.
const LONGEST: u32 = 300;

// How long a list is: the crowded ones are the longest, one in eight of the others at most as long, the rest up to 60.
fn length_of(g: Random, crowded: bool) -> u32 {
    if crowded {
        return LONGEST;
    }
    if g.below(8) == 0 {
        return g.next().below(LONGEST + 1);
    }
    g.next().below(61)
}

// A call on the board that the log does not know: where it changes something, what is written then has to be reported.
fn planted_call(tally: Tally, s: Session, c: Call) -> Tally {
    let made = session::with_call(s, c);
    let after = made.session;
    if boards::alike_problems(&session::problem_now(s), &session::problem_now(after)) {
        return tally;
    }
    let mut wrong = s;
    let changed = after.board;
    wrong.board = changed;
    let t = tally.planted(!session::write_right(wrong));
    t.planted(!session::history_write_right(wrong))
}

// A budget press and a group press that the log does not know.
fn planted(tally: Tally, s: Session, g: Random) -> Tally {
    let now = session::problem_now(s);
    let budget = Call::budget((now.budget % MAX_BUDGET).wrapping_add(1));
    let t = planted_call(tally, s, budget);
    planted_call(t, s, call::some_group(g, now, Kind::PinGroup))
}

// Everything that stands taken back, the card's records too, and one take-back more, which is refused. Without records
// the log says then that the board is written as its card was.
fn unwound(start: Progress) -> Progress {
    let count = start.session.log.standing().wrapping_add(1);
    let mut p = start;
    for k in 0..count {
        p = called_on_card(p, Call::take_back());
    }
    p
}

// So many lists begin on a plain card, and as many as follow on a card with records, some with 200.
const PLAIN: u32 = 3500;

const RECORDED: u32 = 1000;

fn nth_session(k: u32) -> Session {
    let card = sample::small_instance(k);
    if k < PLAIN {
        return session::opened(card);
    }
    let count = history_sample::nth_count(k / 6, Random::seeded(k));
    session::opened_with(
        card,
        history_sample::some_history(card, count, k % 4096 * 256),
    )
}

// One list: the card is opened, the calls are made, the last board is looked at and written; then all is taken back.
fn one_list(tally: Tally, k: u32) -> Tally {
    let crowded = k % 20 == 0;
    let seed = k % 4096 * 512;
    let opened = nth_session(k);
    let start = Progress {
        session: opened,
        tally: tally.with(LISTS, 1).with(RECORDS, opened.log.standing()),
    };
    let g = Random::seeded(seed);
    let end = list_of_calls(start, crowded, seed, length_of(g, crowded));
    let s = end.session;
    let last = unwound(Progress {
        session: s,
        tally: planted(between(end.tally, s, 0), s, g),
    });
    between(last.tally, last.session, 0)
}

fn run(count: u32) -> Tally {
    (0..count).fold(Tally::zero(), |t, k| one_list(t, k))
}

pub fn all() {
    run(PLAIN + RECORDED).report(
        b"lists\ncalls\ngroup presses\nof these accepted\nlooks\nwrites\nwrites as history cards\n\
        records on the cards\nof these taken back\n\
        answer 0:\nanswer 1:\nanswer 2:\nanswer 3:\nanswer 4:\nanswer 5:\nanswer 6:\n\
        answer 7:\nanswer 8:\nanswer 9:\nanswer 10:\nanswer 11:\nanswer 12:\nanswer 13:\n",
    );
}
