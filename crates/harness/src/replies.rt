// A call's answer, and whether it left everything that it was lent as before.
use crate::{boards, buffers, calls, history_calls, verdict};
use board::{Answered, Board};
use reference::card::CARD_ROOM;
use reference::certificate::Certificate;

#[derive(Clone, Copy)]
pub struct Reply {
    pub answer: u32,
    pub untouched: bool,
}

// Whether a call gave this answer, and touched nothing if it is a refusal.
pub fn is_reply(r: Reply, answer: u32) -> bool {
    r.answer == answer && (answer == 0 || r.untouched)
}

// Of a call that changes a board.
pub fn of_call(before: Board, r: Answered) -> Reply {
    let after = r.board;
    Reply {
        answer: r.answer,
        untouched: boards::identical(before, after),
    }
}

// Of a look with so much lent of each buffer.
pub fn of_look(b: Board, parents: u32, states: u32, cuts: u32) -> Reply {
    let s = calls::look_with(b, parents, states, cuts);
    Reply {
        answer: s.answer,
        untouched: verdict::all_untouched(s),
    }
}

// Of a write with so many bytes lent.
pub fn of_write(b: Board, room: u32) -> Reply {
    let w = calls::write_with(b, room);
    Reply {
        answer: w.answer,
        untouched: buffers::bytes_untouched(&w.bytes, 0, CARD_ROOM as u32),
    }
}

// Of a write as a history card.
pub fn of_history_write(b: Board, room: u32) -> Reply {
    let w = history_calls::write_with(b, room);
    Reply {
        answer: w.answer,
        untouched: buffers::bytes_untouched(&w.bytes, 0, CARD_ROOM as u32),
    }
}

// Of a check of a list that is no tree, with so many bytes of it lent. What it is lent it can not write.
pub fn of_check(b: Board, parents: u32) -> Reply {
    let mut o = Certificate::empty();
    o.parents_sent = parents;
    Reply {
        answer: calls::check(b, o),
        untouched: true,
    }
}
