// Looks at the last board of a list; and held to a log that lacks something that a look shows, which has to be
// reported.
use board::Board;
use harness::calls::Shown;
use harness::session::Session;
use harness::{boards, calls, session};
use reference::log::Log;
use reference::problem::{BANNED, Problem};
use reference::tally::Tally;
use reference::{access, outcome, problem, trees};

// The largest instance whose trees the reference lists.
pub const LISTED: u32 = 6;

// A session whose board and log do not go together.
fn planted(tally: Tally, which: u32, wrong: Session) -> Tally {
    let t = tally.with(which, 1);
    t.planted(!session::look_right(wrong))
}

// Another board with the same log.
fn planted_board(tally: Tally, which: u32, s: Session, b: Board) -> Tally {
    let mut wrong = s;
    wrong.board = b;
    planted(tally, which, wrong)
}

fn kind_due(p: Problem) -> u32 {
    let table = p.costs();
    outcome::kind(trees::list(&table, p.n, p.root), p.budget)
}

// A log that lacks every press, where the outcome is of another kind without them.
fn planted_log(tally: Tally, which: u32, s: Session) -> Tally {
    let mut wrong = s;
    let log = s.log;
    wrong.log = Log::opened(log.card, log.below);
    let kind = kind_due(session::problem_now(s));
    if kind == kind_due(session::problem_now(wrong)) {
        return tally;
    }
    planted(tally, which, wrong)
}

// A budget that the log does not know: one less than a tree costs that is within budget, or what one costs that is
// over it. Without a tree, or where it costs nothing, there is none.
fn planted_budget(tally: Tally, which: u32, s: Session, shown: Shown) -> Tally {
    let mut b = s.board;
    let kind = shown.kind;
    let total = shown.total;
    if kind == outcome::PLAN && total == 0 {
        return tally;
    }
    match kind {
        outcome::PLAN => b.budget = total.wrapping_sub(1),
        outcome::OVER => b.budget = total,
        _ => return tally,
    }
    planted_board(tally, which, s, b)
}

// A ban that the log does not know: of an arc of the shown tree, which is not closed by the log.
fn planted_mark(tally: Tally, which: u32, s: Session, shown: Shown) -> Tally {
    let mut b = s.board;
    if b.n == 0 {
        return tally;
    }
    let head = b.root.wrapping_add(1) % b.n;
    let tail = access::byte(&shown.parents, head);
    if !boards::problem_of(b).is_arc(tail, head) {
        return tally;
    }
    let at = problem::cell(tail, head);
    b.marks[at] = BANNED;
    planted_board(tally, which, s, b)
}

// A look, where the reference can list the trees.
pub fn looked(tally: Tally, which: u32, lacking: u32, s: Session) -> Tally {
    let board = s.board;
    if LISTED < board.n {
        return tally;
    }
    let shown = calls::look(board);
    let t = tally.checked(which, session::look_right(s));
    let u = planted_budget(t, lacking, s, shown);
    let v = planted_mark(u, lacking, s, shown);
    planted_log(v, lacking, s)
}
