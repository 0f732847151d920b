// Lines on cards, lent buffers and plans made elsewhere.
use harness::session::Session;
use harness::{calls, replies, session};
use reference::certificate::Certificate;
use reference::refusals::{INVALID_BOARD, number_of};
use reference::script::{Line, NUMBERS};
use reference::{access, card, certificate, history_card, worked};

// "write: 8 0 0 0 80 0 5 0": the card of what the log says has these bytes, and the board is written so.
pub fn write_right(line: Line, s: Session) -> bool {
    let c = card::build(session::problem_now(s));
    c.length.wrapping_add(line.inputs) == line.count
        && line.expects_bytes(&c.bytes)
        && session::write_right(s)
}

// "look lent 4 16 122: 0": a look with that many bytes for parents and states and words for cuts.
pub fn look_right(line: Line, s: Session) -> bool {
    let board = s.board;
    let r = replies::of_look(board, line.number(1), line.number(2), line.number(3));
    replies::is_reply(r, line.expected(1))
}

// "into 29 bytes: 14": a write.
pub fn buffers_right(line: Line, s: Session) -> bool {
    let board = s.board;
    let r = replies::of_write(board, line.number(1));
    replies::is_reply(r, line.expected(1))
}

// "card 2 0 5 5 0 0 8: 0": the answer to a card of n positions, root, budget, price and mark from 0 to 1, filling bit,
// length; the reference's and the planner's.
pub fn card_right(line: Line) -> bool {
    let p = worked::without_arcs(line.number(1), line.number(2), line.number(3));
    let c = worked::card(
        p,
        line.number(4),
        line.number(5),
        line.number(6),
        line.number(7),
    );
    let answer = line.expected(1);
    number_of(history_card::open(c.as_slice())) == answer && calls::open(c).answer == answer
}

// The plan of a line, whose words begin at a place.
fn plan_of(line: Line, n: u32, words: u32) -> Certificate {
    let mut o = Certificate::empty();
    for k in 0..NUMBERS as u32 {
        let number = line.number(k.wrapping_add(1));
        if k < n {
            o = o.with_parent(k, access::narrow(number));
        }
        if words <= k {
            o = o.with_word(k.wrapping_sub(words), number);
        }
    }
    o
}

// "answer to 255 0 1 1, total 15, cuts 0: 25": a plan for the board; the planner's answer and the reference's, by the
// log, are the line's. 15 is the planner's alone.
pub fn plan_right(line: Line, s: Session) -> bool {
    let board = s.board;
    let p = session::problem_now(s);
    let table = p.costs();
    let words = p.n.wrapping_add(2);
    let mut o = plan_of(line, p.n, words);
    o.total = line.number(p.n.wrapping_add(1));
    o.count = line.number(words);
    o.parents_sent = p.n;
    o.words_sent = line.inputs.wrapping_sub(words);
    let answer = line.expected(1);
    calls::check(board, o) == answer
        && (answer == INVALID_BOARD
            || number_of(certificate::check(&table, &o, p.n, p.root)) == answer)
}
