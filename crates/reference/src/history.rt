// Recorded presses, held plainly: what each replaced (document 02, A8), and what taking one back restores. Which press
// it was is not recorded.
use crate::problem::{MAX_BUDGET, MAX_VERTICES, NO_MARK, Problem};
use crate::{problem, shown};

// "At most 200 presses are recorded".
pub const RECORDS: usize = 200;

// The kinds of a record: "0 a link", "1 the replaced budget", "2 a group"; and 3, which is no kind.
#[derive(Clone, Copy, PartialEq, Eq)]
pub enum Kind {
    Link,
    Budget,
    Group,
    None,
}

impl Kind {
    // The two bits of the kind.
    pub fn number(self) -> u32 {
        match self {
            Kind::Link => 0,
            Kind::Budget => 1,
            Kind::Group => 2,
            Kind::None => 3,
        }
    }

    pub fn of_number(number: u32) -> Kind {
        match number {
            0 => Kind::Link,
            1 => Kind::Budget,
            2 => Kind::Group,
            _ => Kind::None,
        }
    }
}

// A place for each fed position.
pub const HEADS: usize = MAX_VERTICES as usize;

// The tail and the head of a link; or the tail of a group and the set of its heads; or a budget, in first. The replaced
// mark of each head stands at that head's place, and 0 at every other.
#[derive(Clone, Copy, PartialEq, Eq)]
pub struct Record {
    pub kind: Kind,
    pub first: u32,
    pub second: u32,
    pub marks: [u8; HEADS],
}

impl Record {
    pub fn new(kind: Kind, first: u32, second: u32) -> Record {
        Record {
            kind,
            first,
            second,
            marks: [0; HEADS],
        }
    }

    pub fn of_budget(budget: u32) -> Record {
        Record::new(Kind::Budget, budget, 0)
    }

    pub fn of_link(tail: u32, head: u32, mark: u8) -> Record {
        Record::new(Kind::Link, tail, head).with_mark(head, mark)
    }

    // A group whose replaced marks are all free.
    pub fn of_group(tail: u32, set: u32) -> Record {
        Record::new(Kind::Group, tail, set)
    }

    pub fn mark_at(&self, head: u32) -> u8 {
        self.marks[head as usize % HEADS]
    }

    pub fn with_mark(self, head: u32, mark: u8) -> Record {
        let mut r = self;
        r.marks[head as usize % HEADS] = mark;
        r
    }

    // Whether it names a link to that head.
    pub fn names(&self, head: u32) -> bool {
        match self.kind {
            Kind::Link => self.second == head,
            Kind::Group => shown::holds(self.second, head),
            _ => false,
        }
    }

    // Whether all that it names are links of the instance, and all that it says of them are marks.
    fn names_links(&self, p: &Problem) -> bool {
        (0..MAX_VERTICES).all(|head| {
            !self.names(head) || p.is_arc(self.first, head) && self.mark_at(head) < NO_MARK
        })
    }

    // Whether it is none of "kind 3 .., or a record naming a non-link, an empty group or a value out of range".
    pub fn is_lawful(&self, p: &Problem) -> bool {
        match self.kind {
            Kind::Link => self.names_links(p),
            Kind::Budget => self.first <= MAX_BUDGET,
            Kind::Group => self.second != 0 && self.names_links(p),
            Kind::None => false,
        }
    }

    // "they restore what the record says": an instance with that in it.
    pub fn restored(&self, p: Problem) -> Problem {
        if self.kind == Kind::Budget {
            return p.with_budget(self.first);
        }
        let mut q = p;
        for head in 0..MAX_VERTICES {
            if self.names(head) {
                q.marks[problem::cell(self.first, head)] = self.mark_at(head);
            }
        }
        q
    }
}

// Records, oldest first.
#[derive(Clone, Copy)]
pub struct History {
    pub count: u32,
    pub records: [Record; RECORDS],
}

impl History {
    pub fn empty() -> History {
        let unused = Record::of_budget(0);
        History {
            count: 0,
            records: [unused; RECORDS],
        }
    }

    // The records that there are, which are at most 200 whatever the count says.
    pub fn recorded(&self) -> &[Record] {
        self.records
            .get(..self.count as usize)
            .unwrap_or(&self.records)
    }

    pub fn nth(&self, k: u32) -> Record {
        self.records[k as usize % RECORDS]
    }

    pub fn with_nth(self, k: u32, r: Record) -> History {
        let mut h = self;
        h.records[k as usize % RECORDS] = r;
        h
    }

    // One record more, where there is room for it.
    pub fn with(self, r: Record) -> History {
        if RECORDS as u32 <= self.count {
            return self;
        }
        let mut h = self.with_nth(self.count, r);
        h.count = self.count.wrapping_add(1);
        h
    }

    pub fn latest(&self) -> Record {
        self.nth(self.count.wrapping_sub(1))
    }

    pub fn without_latest(self) -> History {
        let mut h = self;
        h.count = self.count.wrapping_sub(1);
        h
    }

    // Whether two histories have the same records. What stands past the count is not compared.
    pub fn is_same(&self, other: &History) -> bool {
        self.count == other.count && self.recorded() == other.recorded()
    }
}
