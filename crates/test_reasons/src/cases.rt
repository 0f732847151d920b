// The documents' sheets with results worked out by hand, one to a line of the standard input, held against the calls
// and, with everything that is not written out, against the reference. A line "Q" opens a sheet; "mark", "group",
// "budget" and "take-back" are calls; after "plain" or "history" the board was written as such a card and opened again.
use crate::calls::Given;
use crate::{asked, calls, compared};
use harness::calls::look;
use harness::session;
use harness::session::Session;
use reference::outcome::NONE;
use reference::script::Line;
use reference::tally::Tally;
use reference::{access, script, worked};
use reference_reasons::due::Reason;

// The numbers of a plan: the outcome; the set that nothing enters, or the total and then the tree.
fn nth_of_plan(g: Given, outcome: u32, total: u32, k: u32) -> u32 {
    match k {
        1 => outcome,
        _ if outcome == NONE => access::word(&g.cuts, 0),
        2 => total,
        _ => access::byte(&g.parents, k.wrapping_sub(3)),
    }
}

// The numbers of a result: 0 banned and by whom; 1 the rival and by whom; 2 and the plan; 3 refused and the answer.
fn nth_number(g: Given, k: u32) -> u32 {
    match (g.reason, k) {
        (Ok(Reason::Banned(_)), 0) => 0,
        (Ok(Reason::Banned(place)), _) => place,
        (Ok(Reason::Rival(_, _)), 0) => 1,
        (Ok(Reason::Rival(rival, _)), 1) => rival,
        (Ok(Reason::Rival(_, place)), _) => place,
        (Ok(Reason::Priced(_, _)), 0) => 2,
        (Ok(Reason::Priced(outcome, total)), _) => nth_of_plan(g, outcome, total, k),
        (Err(_), 0) => 3,
        (Err(answer), _) => answer,
    }
}

// Whether the result has the line's numbers, from one on.
fn has_numbers(line: Line, g: Given, from: u32) -> bool {
    (line.inputs..line.count).zip(from..).all(|(k, which)| nth_number(g, which)
        == line.number(k.wrapping_add(1)))
}

// "why 2 1: 2 outcome 1 total 16 feeders 255 2 0 1", "why 0 1: 0 by 1", "why 0 1: 1 rival 2 by 1", "why 3 2: 3 answer
// 10"; and "not 0 1: outcome 1 total 16 feeders 255 2 0 1", "not 3 2: answer 10", of the plan without it.
fn result_right(line: Line, s: Session, is_why: bool) -> bool {
    let tail = line.number(1);
    let head = line.number(2);
    let p = session::problem_now(s);
    let table = p.costs();
    let both = calls::ask(s.board, tail, head, false);
    if is_why {
        return has_numbers(line, both.why, 0)
            && compared::why_right(&table, p, s.log, tail, head, both.why);
    }
    has_numbers(line, both.without, 1)
        && compared::without_right(&table, p, tail, head, both.without)
}

// "state 2 1: 1": what a look shows.
fn state_right(line: Line, s: Session) -> bool {
    let p = session::problem_now(s);
    let state = asked::state_at(look(s.board), p.n, line.number(1), line.number(2));
    state == line.expected(1)
}

fn is_right(line: Line, s: Session) -> bool {
    match line.first {
        b'w' => result_right(line, s, true),
        b'n' => result_right(line, s, false),
        b's' => state_right(line, s),
        _ => !line.expects,
    }
}

fn after(line: Line, s: Session) -> Session {
    let first = line.first;
    match first {
        b'Q' | b'T' | b'O' => session::opened(worked::instance_named(first, line.number(1))),
        b'p' => session::opened(session::problem_now(s)),
        b'h' => session::opened_with(session::problem_now(s), s.log.records_now()),
        b'm' | b'g' | b'b' | b't' => called(line, s),
        _ => s,
    }
}

fn called(line: Line, s: Session) -> Session {
    session::with_call(s, line.call_of()).session
}

// A line in its session, and what it comes to.
fn tried(t: Tally, s: Session, line: Line) -> (Tally, Session) {
    (script::judged(t, line, |l| is_right(l, s)), after(line, s))
}

pub fn all(text: &[u8]) {
    let start = (Tally::zero(), session::opened(worked::q(0)));
    let (t, _) = script::fold_lines(text, start, |(t, s), line| tried(t, s, line));
    t.report(b"lines of the script\nlines that expect something\n");
}
