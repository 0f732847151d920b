// Plans made elsewhere, handed to the planner's check: those of the reference's planner, accepted; with one thing
// changed, refused by the number of that change; with two things changed, as the reference judges; and the planner's
// own plans.
#![tactic(auto)]

mod changes; // changes.rt: a plan with one thing changed
mod plans; // plans.rt: plans, and the boards that they are for

fn main() {
    plans::small();
    plans::large();
}
