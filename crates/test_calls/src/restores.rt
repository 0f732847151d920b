// Records of group presses, written by hand with any marks, taken back: each of their heads has then the mark that the
// record says, nothing else is altered, and what the record has at other heads is not looked at.
use crate::boards::some_board;
use board::{Answered, Board};
use harness::group_records::GroupRecord;
use harness::{boards, calls, damage, faults, group_records, records};
use reference::call::Call;
use reference::history::RECORDS;
use reference::problem::MAX_VERTICES;
use reference::random::Random;
use reference::tally::Tally;
use reference::{problem, shown};

// What the program counts beside the faults.
const RESTORED: u32 = 3;

const PASSED_OVER: u32 = 4;

// The board with that record after its others.
fn recorded(b: Board, r: GroupRecord) -> Board {
    let mut c = b;
    let at = c.count % RECORDS;
    c.records[at] = group_records::record_of(r);
    c.count = at + 1;
    c
}

// The board with the marks that the record says.
fn restored(b: Board, r: GroupRecord) -> Board {
    let mut c = b;
    for head in 0..MAX_VERTICES {
        if shown::holds(r.heads, head) {
            let at = problem::cell(r.tail, head);
            c.marks[at] = records::mark_at(r.marks, head);
        }
    }
    c
}

// Whether a take-back gave that board.
pub fn is_right(back: Answered, due: Board) -> bool {
    let after = back.board;
    back.answer == 0 && boards::equal(after, due)
}

// What the take-back gave with another answer, or with one fault in its board: all of it has to be reported.
pub fn planted(tally: Tally, back: Answered, due: Board, tail: u32, head: u32) -> Tally {
    let mut wrong = back;
    wrong.answer = back.answer.wrapping_add(1);
    let mut t = tally.planted(!is_right(wrong, due));
    let after = back.board;
    for kind in 0..faults::KINDS {
        if kind < faults::RECORDS_FROM || after.count != 0 {
            let w = Answered {
                answer: back.answer,
                board: faults::with_fault(after, kind, tail, head),
            };
            t = t.planted(!is_right(w, due));
        }
    }
    t
}

// A record on a board with an arc that the generator picks, taken back; and the same with other bits at a head that it
// does not name.
fn tried(tally: Tally, b: Board, g: Random) -> Tally {
    let arc = damage::some_arc(g, b.n, b.root);
    let c = damage::with_cell(b, arc.tail, arc.head, 5, 0);
    let r = group_records::some_record(c, arc.tail, arc.head, g.next().next());
    let due = restored(c, r);
    let before = recorded(c, r);
    let back = calls::made(before, Call::take_back());
    let t = tally.checked(RESTORED, is_right(back, due));
    let other = calls::made(faults::with_rubbish(before, arc.head), Call::take_back());
    let u = t.checked(PASSED_OVER, is_right(other, due));
    planted(u, back, due, arc.tail, arc.head)
}

fn run(count: u32) -> Tally {
    (0..count).fold(
        Tally::zero(),
        |t, k| tried(t, some_board(k), Random::seeded(k)),
    )
}

pub fn all() {
    run(620).report(b"group records taken back\nother heads passed over\n");
}
