// An instance as the reference holds it, and the arcs that remain under its marks.
ghost use Rattle.std.specs.Prelude.{◌<◌};

// "A sheet has 1 to 32 positions".
pub const MAX_VERTICES: u32 = 32;

// A cell for each pair of vertices, at STRIDE times tail plus head, whatever n is.
pub const STRIDE: u32 = MAX_VERTICES;

pub const CELLS: usize = (STRIDE * STRIDE) as usize;

#[derive(Clone, Copy, PartialEq, Eq)]
pub struct Problem {
    pub n: u32,
    pub root: u32,
    pub budget: u32,
    pub weights: [u32; CELLS],
    pub marks: [u8; CELLS],
}

// "Prices go up to 1,048,574 pence and budgets to 32,505,794, which is 31 times that." (02, A9)
pub const MAX_WEIGHT: u32 = 1048574;

pub const MAX_BUDGET: u32 = 32505794;

// "1,048,575 means no link."
pub const NO_ARC: u32 = 1048575;

// "0 free, 1 pinned, 2 banned", and a number that is no mark.
pub const FREE: u8 = 0;

pub const PINNED: u8 = 1;

pub const BANNED: u8 = 2;

pub const NO_MARK: u8 = 3;

// In a table of costs: the arc does not remain. As a total: there is no tree. More than any budget: a number and no
// Option, so that the least of some and the test against a limit need no case of their own.
pub const ABSENT: u32 = 4294967295;

pub fn cell(tail: u32, head: u32) -> usize
    ensures { result < 1024 }
{
    (tail % STRIDE * STRIDE + head % STRIDE) as usize
}

// Whether a cell can hold an arc: both vertices are there and differ, and the head is not the root.
pub fn can_hold(n: u32, root: u32, tail: u32, head: u32) -> bool {
    tail < n && head < n && tail != head && head != root
}

impl Problem {
    // "It exists where the two differ, the fed one is not the root, and the price is not "no link"."
    pub fn is_arc(&self, tail: u32, head: u32) -> bool {
        can_hold(self.n, self.root, tail, head) && self.weights[cell(tail, head)] != NO_ARC
    }

    // The mark of an arc, and NO_MARK where there is no arc.
    pub fn mark_of(&self, tail: u32, head: u32) -> u8 {
        if self.is_arc(tail, head) {
            self.marks[cell(tail, head)]
        } else {
            NO_MARK
        }
    }

    // Whether head has a pinned arc from another tail. The mark is looked at first, for speed.
    fn pinned_elsewhere(&self, tail: u32, head: u32) -> bool {
        (0..self.n).any(|other| {
            other != tail && self.marks[cell(other, head)] == PINNED && self.is_arc(other, head)
        })
    }

    // "Remaining links: not banned, and not entering a position that has a different pinned feeder."
    pub fn remains(&self, tail: u32, head: u32) -> bool {
        self.mark_of(tail, head) <= PINNED && !self.pinned_elsewhere(tail, head)
    }

    // The weight of each remaining arc, and ABSENT in every other cell. Cells that can hold no arc are passed over at
    // once, for speed.
    pub fn costs(&self) -> [u32; CELLS] {
        let mut table = [ABSENT; CELLS];
        for k in 0..CELLS as u32 {
            let tail = k / STRIDE;
            let head = k % STRIDE;
            if can_hold(self.n, self.root, tail, head) && self.remains(tail, head) {
                table[k as usize] = self.weights[k as usize];
            }
        }
        table
    }

    pub fn with_weight(self, tail: u32, head: u32, weight: u32) -> Problem {
        let mut q = self;
        q.weights[cell(tail, head)] = weight;
        q
    }

    pub fn with_mark(self, tail: u32, head: u32, mark: u8) -> Problem {
        let mut q = self;
        q.marks[cell(tail, head)] = mark;
        q
    }

    pub fn with_budget(self, budget: u32) -> Problem {
        Problem { budget, ..self }
    }
}
