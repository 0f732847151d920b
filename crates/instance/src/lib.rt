// The problem in the program's terms: the documents' limits and refusals, vertices, cuts, marks and outcomes. What the
// words mean is defined in specs/.
#![tactic(auto)]

pub mod limits; // limits.rt: the numbers of documents 01 and 02
pub mod refusals; // refusals.rt: the refusals of documents 01 and 02
pub mod states; // states.rt: the states of arcs and edges

ghost use Rattle.std.specs.Prelude.{◌≡◌};
ghost use Rattle.instance.specs.Marks.{mark_number};

use limits::{BANNED, FREE, PINNED};

// A vertex of an instance (document 01: a position). A vertex and a cut are kept apart, so that neither can be handed
// in where the other is meant.
#[derive(Clone, Copy, Debug, PartialEq, Eq)]
pub struct Vertex(pub u32);

// The place of a cut among the cuts found, from 0.
#[derive(Clone, Copy, Debug, PartialEq, Eq)]
pub struct CutIndex(pub u32);

// A mark to set. The cells of an instance hold its number.
#[derive(Clone, Copy, Debug, PartialEq, Eq)]
pub enum Mark {
    Free,
    Pinned,
    Banned,
}

// What planning an instance comes to: the total of a plan, or the cheapest total where it is over the budget, or that
// there is no tree.
#[derive(Clone, Copy, Debug, PartialEq, Eq)]
pub enum Outcome {
    Plan(u32),
    Over(u32),
    NoTree,
}

impl From<Mark> for u8 {
    ghost from_gives = { λ m k. k ≡ mark_number m };

    fn from(mark: Mark) -> u8 {
        match mark {
            Mark::Free => FREE,
            Mark::Pinned => PINNED,
            Mark::Banned => BANNED,
        }
    }
}
