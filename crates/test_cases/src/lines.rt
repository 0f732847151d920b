// The documents' own cases, one to a line of the standard input, held against the reference and against the planner:
// the worked outcomes with their trees, states and cards, every refusal from 1 to 15 but 6 with what it leaves behind,
// the 200 records, group presses, plans made elsewhere, cards with records.
use crate::{buffer_lines, history_lines, look_lines};
use harness::session::{Called, Session};
use harness::{boards, replies, session};
use reference::history::History;
use reference::log::Log;
use reference::moves::Move;
use reference::refusals::INVALID_BOARD;
use reference::script::{Line, SCRIPT_ROOM};
use reference::tally::Tally;
use reference::{outcome, script, worked};

// A call, made as often as the line says: what the last one gave.
fn called(line: Line, s: Session) -> Called {
    let times = line.times_of();
    let c = line.call_of();
    let mut last = session::with_call(s, c);
    for k in 1..times {
        let s = last.session;
        last = session::with_call(s, c);
    }
    last
}

// "mark 1 on 2 1: 0", "group 1 on 2, set 10: 0", "budget 16: 0", "take-back: 13": the board's answer is the line's, and
// the log's is the same. 15 is no answer of the log's, which knows the card alone.
fn answer_right(line: Line, s: Session) -> bool {
    let answer = line.expected(1);
    let c = called(line, s);
    (c.log_answer == answer || answer == INVALID_BOARD) && replies::is_reply(c.reply, answer)
}

// Whether a line is right.
fn is_right(line: Line, s: Session) -> bool {
    match line.first {
        b'm' | b'g' | b'b' | b't' => answer_right(line, s),
        b'p' => look_lines::outcome_right(line, s, outcome::PLAN),
        b'o' => look_lines::outcome_right(line, s, outcome::OVER),
        b'n' => look_lines::outcome_right(line, s, outcome::NONE),
        b'f' => look_lines::parents_right(line, s),
        b's' => look_lines::set_right(line, s),
        b'w' => buffer_lines::write_right(line, s),
        b'l' => buffer_lines::look_right(line, s),
        b'i' => buffer_lines::buffers_right(line, s),
        b'c' => buffer_lines::card_right(line),
        b'a' => buffer_lines::plan_right(line, s),
        b'C' => history_lines::opening_right(line),
        b'r' => history_lines::records_right(line, s),
        b'H' => history_lines::move_right(line, Move::ToHistory),
        b'P' => history_lines::move_right(line, Move::ToPlain),
        _ => !line.expects,
    }
}

// A board whose root is out of range.
fn damaged() -> Session {
    let p = worked::without_arcs(4, 4, 16);
    Session {
        board: boards::of_problem(p),
        log: Log::opened(p, History::empty()),
    }
}

// The session after a line: a sheet that is opened, or a call that is made.
fn after(line: Line, s: Session) -> Session {
    let first = line.first;
    match first {
        b'Q' | b'T' | b'O' => session::opened(worked::instance_named(first, line.number(1))),
        b'D' => damaged(),
        b'C' => history_lines::after_opening(line, s),
        b'm' | b'g' | b'b' | b't' => called(line, s).session,
        _ => s,
    }
}

// A line in its session, and what it comes to.
fn tried(t: Tally, s: Session, line: Line) -> (Tally, Session) {
    (script::judged(t, line, |l| is_right(l, s)), after(line, s))
}

pub fn all() {
    let mut text = [0; SCRIPT_ROOM];
    io::read_full(0, &mut text);
    let start = (Tally::zero(), damaged());
    let (t, _) = script::fold_lines(&text, start, |(t, s), line| tried(t, s, line));
    t.report(b"lines of the script\nlines that expect something\n");
}
