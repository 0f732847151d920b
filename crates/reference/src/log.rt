// The log of document 01, "The book for demand 3": kept from the card and the calls' arguments alone. The card may have
// records (02, A8).
use crate::call::{Call, Kind};
use crate::history::{History, RECORDS, Record};
use crate::problem::{BANNED, FREE, MAX_BUDGET, MAX_VERTICES, PINNED, Problem};
use crate::refusals::{BAD_BUDGET, HISTORY_EMPTY, HISTORY_FULL, NO_SUCH_ARC, NO_VERTEX};
use crate::{group, problem};

// "refused with 9 if a position is not below n, else with 10 if the card has no such link".
pub fn check_arc(p: &Problem, tail: u32, head: u32) -> Result<(), u32> {
    if p.n <= tail || p.n <= head {
        return Err(NO_VERTEX);
    }
    if p.is_arc(tail, head) {
        Ok(())
    } else {
        Err(NO_SUCH_ARC)
    }
}

// "refused with 11 if above" the limit.
fn check_budget(budget: u32) -> Result<(), u32> {
    if MAX_BUDGET < budget {
        return Err(BAD_BUDGET);
    }
    Ok(())
}

// The mark that a call sets.
pub fn mark_set(kind: Kind) -> u8 {
    match kind {
        Kind::Pin | Kind::PinGroup => PINNED,
        Kind::Ban | Kind::BanGroup => BANNED,
        _ => FREE,
    }
}

// The instance with what an entry sets.
fn applied(p: Problem, c: Call) -> Problem {
    if c.kind == Kind::Budget {
        return p.with_budget(c.first);
    }
    if c.kind.is_group() {
        return group::marked(p, c.first, c.second, mark_set(c.kind));
    }
    p.with_mark(c.first, c.second, mark_set(c.kind))
}

// The record of a group that has the marks of an instance.
fn of_group(p: &Problem, tail: u32, set: u32) -> Record {
    let mut r = Record::of_group(tail, set);
    for head in 0..MAX_VERTICES {
        if r.names(head) {
            r = r.with_mark(head, p.marks[problem::cell(tail, head)]);
        }
    }
    r
}

// What an entry replaces on an instance: "the mark or budget it replaced", of a group "each replaced mark".
fn replaced(p: &Problem, c: Call) -> Record {
    if c.kind == Kind::Budget {
        return Record::of_budget(p.budget);
    }
    if c.kind.is_group() {
        return of_group(p, c.first, c.second);
    }
    Record::of_link(c.first, c.second, p.marks[problem::cell(c.first, c.second)])
}

// The card, with its records, which "lie under the standing presses and set nothing"; and the effective commands,
// oldest first.
#[derive(Clone, Copy)]
pub struct Log {
    pub card: Problem,
    pub below: History,
    pub count: u32,
    pub calls: [Call; RECORDS],
}

impl Log {
    // "It holds the card and a list of standing presses, empty at first".
    pub fn opened(card: Problem, records: History) -> Log {
        let none = Call::take_back();
        Log {
            card,
            below: records,
            count: 0,
            calls: [none; RECORDS],
        }
    }

    // The commands that stand.
    pub fn entries(&self) -> &[Call] {
        self.calls.get(..self.count as usize).unwrap_or(&self.calls)
    }

    // How many stand, those of the card too: "they count among the 200".
    pub fn standing(&self) -> u32 {
        self.count.wrapping_add(self.below.count)
    }

    // "else with 12 if 200 stand".
    fn check_room(&self) -> Result<(), u32> {
        if self.standing() < RECORDS as u32 {
            Ok(())
        } else {
            Err(HISTORY_FULL)
        }
    }

    // Whether a press is accepted.
    fn check_press(&self, c: Call) -> Result<(), u32> {
        if c.kind == Kind::Budget {
            check_budget(c.first)?;
        } else if c.kind.is_group() {
            group::check(&self.card, c.first, c.second)?;
        } else {
            check_arc(&self.card, c.first, c.second)?;
        }
        self.check_room()
    }

    // "a take-back that reaches one is accepted, strikes it out and puts what it says in place of the card's marks or
    // budget."
    fn without_record(self) -> Log {
        let mut l = self;
        l.card = self.below.latest().restored(self.card);
        l.below = self.below.without_latest();
        l
    }

    // "accepted, and the last one is struck out"; "refused with 13 if none stands".
    fn taken_back(self) -> Result<Log, u32> {
        if self.standing() == 0 {
            return Err(HISTORY_EMPTY);
        }
        if self.count == 0 {
            return Ok(self.without_record());
        }
        let mut l = self;
        l.count = l.count.wrapping_sub(1);
        Ok(l)
    }

    // "accepted and written at the end". A group is one press and names its links alone: "Members that are no link are
    // skipped."
    fn with_press(self, c: Call) -> Log {
        let mut l = self;
        let mut entry = c;
        if c.kind.is_group() {
            entry.second = group::links(&self.card, c.first, c.second);
        }
        l.calls[l.count as usize % RECORDS] = entry;
        l.count = l.count.wrapping_add(1);
        l
    }

    // The log after a call, or the number of the refusal: "A refused call leaves the book as it was."
    pub fn note(self, c: Call) -> Result<Log, u32> {
        if c.kind == Kind::TakeBack {
            return self.taken_back();
        }
        self.check_press(c)?;
        Ok(self.with_press(c))
    }

    // The card's instance under what the log says: an arc's mark is "the one set by the last standing press that names
    // it, or the card's if none does", the budget "that of the last standing budget press, or the card's if there is
    // none".
    pub fn problem_now(&self) -> Problem {
        let mut p = self.card;
        for &c in self.entries() {
            p = applied(p, c);
        }
        p
    }

    // The records of the board: the card's, and what each standing press replaced.
    pub fn records_now(&self) -> History {
        let mut h = self.below;
        let mut p = self.card;
        for &c in self.entries() {
            h = h.with(replaced(&p, c));
            p = applied(p, c);
        }
        h
    }
}
