// The enumeration of all fitting arborescences, with no program: the definitions are in specs/. What a walk can end by
// is the program's own enum, so that there is one.
#![tactic(auto)]

// How a walk ended: everything was tried; one more try was due and the limit was reached; or the next tree had no room.
// As long as nothing ended it, a walk stands at Complete.
#[derive(Clone, Copy)]
pub enum Ended {
    Complete,
    AtLimit,
    NoRoom,
}
