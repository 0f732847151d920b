// What the test programs share, and the one place that sees both the planner and the reference: the planner's calls on
// lent buffers that are longer than needed, boards beside the reference's instances, changed boards, and comparisons.
#![tactic(auto)]

pub mod boards; // boards.rt: boards and the reference's instances
pub mod buffers; // buffers.rt: what stands in a buffer before a call
pub mod calls; // calls.rt: the planner's calls
pub mod changes; // changes.rt: a board with a change of any kind, damaged or not
pub mod damage; // damage.rt: a board with one field changed
pub mod faults; // faults.rt: a board with a fault planted
pub mod group_records; // group_records.rt: records of group presses, sound and damaged
pub mod histories; // histories.rt: the records of a board, as the reference holds them
pub mod history_calls; // history_calls.rt: the planner's calls on cards with records
pub mod records; // records.rt: records of a board's history
pub mod replays; // replays.rt: a list of calls handed over whole
pub mod replies; // replies.rt: a call's answer, and whether it touched anything
pub mod session; // session.rt: a board beside the log
pub mod verdict; // verdict.rt: whether what a look showed is right
