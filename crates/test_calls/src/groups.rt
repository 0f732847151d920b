// Group presses against single presses on the members of their sets, in random order and with repetitions, on boards of
// all sizes: "The marks afterwards equal those from single presses on each member link, in any order, the 200 limit
// aside." (02, A5) Also what is recorded, and the board after a take-back.
use crate::boards::some_board;
use crate::singles::Singles;
use crate::{restores, singles};
use board::{Answered, Board};
use harness::{boards, calls, faults, records};
use reference::call::{Call, Kind};
use reference::history::RECORDS;
use reference::problem::MAX_VERTICES;
use reference::random::Random;
use reference::refusals::number_of;
use reference::tally::Tally;
use reference::{call, group, log};

// What the program counts beside the faults.
const GROUPS: u32 = 3;

const ACCEPTED: u32 = 4;

const SINGLES: u32 = 5;

const TAKEN_BACK: u32 = 6;

const PASSED_OVER: u32 = 7;

// The board after an accepted group: the marks that the single presses left, and one record more, with its links and
// the mark that each had before.
fn board_due(before: Board, s: Singles, c: Call) -> Board {
    let p = boards::problem_of(before);
    let links = group::links(&p, c.first, c.second);
    let mut b = s.board;
    let records = before.records;
    b.records = records;
    b.count = before.count % RECORDS + 1;
    let at = before.count % RECORDS;
    b.records[at] = records::marks_record(c.first, links, records::marks_into(p, c.first, links));
    b
}

// Whether a group press gave what the single presses say, and what the log does.
fn is_right(made: Answered, before: Board, s: Singles, c: Call) -> bool {
    let after = made.board;
    let p = boards::problem_of(before);
    if made.answer != singles::answer_due(s, p.n, c.first) {
        return false;
    }
    if made.answer != number_of(group::check(&p, c.first, c.second)) {
        return false;
    }
    if made.answer != 0 {
        return boards::identical(before, after);
    }
    let links = group::links(&p, c.first, c.second);
    let marked = group::marked(p, c.first, links, log::mark_set(c.kind));
    if boards::problem_of(after) != marked {
        return false;
    }
    boards::equal(after, board_due(before, s, c))
}

// What the press gave with another answer, or with one fault in its board: all of it has to be reported.
fn planted(tally: Tally, made: Answered, before: Board, s: Singles, c: Call, head: u32) -> Tally {
    let mut wrong = made;
    wrong.answer = made.answer.wrapping_add(1);
    let mut t = tally.planted(!is_right(wrong, before, s, c));
    let after = made.board;
    for kind in 0..faults::KINDS {
        let w = Answered {
            answer: made.answer,
            board: faults::with_fault(after, kind, c.first, head),
        };
        t = t.planted(!is_right(w, before, s, c));
    }
    t
}

// The press held against single ones that left another mark, and against one that was refused with 9: both have to be
// reported.
fn planted_singles(
    tally: Tally,
    made: Answered,
    before: Board,
    s: Singles,
    c: Call,
    head: u32,
) -> Tally {
    let mut marked = s;
    let b = s.board;
    marked.board = faults::with_fault(b, faults::MARK, c.first, head);
    let mut refused = s;
    refused.no_vertex = s.no_vertex.wrapping_add(1);
    let t = tally.planted(!is_right(made, before, marked, c));
    t.planted(!is_right(made, before, refused, c))
}

// What follows an accepted group: it is taken back, as it is and with other bits at a head that its record does not
// name.
fn tried_accepted(
    tally: Tally,
    made: Answered,
    before: Board,
    s: Singles,
    c: Call,
    head: u32,
) -> Tally {
    let after = made.board;
    let back = calls::made(after, Call::take_back());
    let other = calls::made(faults::with_rubbish(after, head), Call::take_back());
    let t = tally.with(ACCEPTED, 1);
    let u = t.checked(TAKEN_BACK, restores::is_right(back, before));
    let v = u.checked(PASSED_OVER, restores::is_right(other, before));
    let w = planted_singles(v, made, before, s, c, head);
    restores::planted(w, back, before, c.first, head)
}

// A board that groups are pressed on one after the other, and what was counted on the way.
#[derive(Clone, Copy)]
struct Progress {
    board: Board,
    tally: Tally,
}

// One group press, and the single presses that it is held against.
fn tried(p: Progress, kind: Kind, g: Random) -> Progress {
    let before = p.board;
    let q = boards::problem_of(before);
    let c = call::some_group(g, q, kind);
    let links = group::links(&q, c.first, c.second);
    let head = group::member_from(links, g.below(MAX_VERTICES));
    let made = calls::made(before, c);
    let s = singles::singles_for(before, c, call::drawn(g));
    let t = p.tally.checked(GROUPS, is_right(made, before, s, c));
    let mut u = planted(t.with(SINGLES, s.pressed), made, before, s, c, head);
    if made.answer == 0 {
        u = tried_accepted(u, made, before, s, c, head);
    }
    let after = made.board;
    Progress {
        board: after,
        tally: u,
    }
}

// A board, and three groups on it.
fn tried_all(tally: Tally, k: u32) -> Tally {
    let g = Random::seeded(k);
    let h = g.next();
    let start = Progress {
        board: some_board(k),
        tally,
    };
    let pinned = tried(start, Kind::PinGroup, g);
    let banned = tried(pinned, Kind::BanGroup, h);
    let cleared = tried(banned, Kind::ClearGroup, h.next());
    cleared.tally
}

fn run(count: u32) -> Tally {
    (0..count).fold(Tally::zero(), |t, k| tried_all(t, k))
}

pub fn all() {
    run(620).report(
        b"group presses\naccepted\nsingle presses\ntaken back\nother heads passed over\n",
    );
}
