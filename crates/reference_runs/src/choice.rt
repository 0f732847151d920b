// Edges of a graph, each taken or left. "a cheapest spanning tree of the runs, pins and bans kept": n - 1 runs that
// close no cycle, every pinned one among them and no banned one.
use crate::answers::{BANNED, NO_RUN, PINNED};
use crate::places;
use crate::places::entry;

pub const VERTICES: usize = 32;

// The components that the taken edges make, as labels of the vertices, two of which are connected where they have the
// same; how many edges there are, and their total.
#[derive(Clone, Copy)]
pub struct Choice {
    pub labels: [u32; VERTICES],
    pub count: u32,
    pub total: u32,
}

impl Choice {
    // Each vertex alone.
    pub fn empty() -> Choice {
        let mut labels = [0; VERTICES];
        for (label, v) in labels.iter_mut().zip(0u32..) {
            *label = v;
        }
        Choice {
            labels,
            count: 0,
            total: 0,
        }
    }

    // The choice with the pair of a cell, unless that is no run, banned, or closes a cycle. All that have the label of
    // one of the two get that of the other.
    fn with_edge(self, n: u32, cell: u32, weight: u32, mark: u8) -> Option<Choice> {
        let old = entry(&self.labels, places::row(n, cell));
        let new = entry(&self.labels, places::column(n, cell));
        if old == new || weight == NO_RUN || mark == BANNED {
            return None;
        }
        let mut next = self;
        for label in &mut next.labels {
            if *label == old {
                *label = new;
            }
        }
        next.count = self.count.wrapping_add(1);
        next.total = self.total.wrapping_add(weight);
        Some(next)
    }

    // The choice after the pair of a cell, which is taken or left; none if it may not be taken, or may not be left.
    pub fn with(self, n: u32, cell: u32, weight: u32, mark: u8, is_taken: bool) -> Option<Choice> {
        if is_taken {
            return self.with_edge(n, cell, weight, mark);
        }
        if mark == PINNED {
            return None;
        }
        Some(self)
    }

    // The total of a choice that is a spanning tree.
    pub fn tree_total(&self, n: u32) -> Option<u32> {
        if self.count.wrapping_add(1) != n {
            return None;
        }
        Some(self.total)
    }
}
