// Lists of presses lent to the planner: random ones in pieces, lists on damaged boards, and the longest ones, each held
// to the log and to the same presses made singly.
#![tactic(auto)]

mod compared; // compared.rt: a result held to what is due
mod damaged; // damaged.rt: lists on damaged boards
mod dues; // dues.rt: what is due for a part of a list
mod judged; // judged.rt: whether a result is what is due
mod lent; // lent.rt: a list lent to the planner
mod lists; // lists.rt: lists of calls, handed over
mod long; // long.rt: the longest lists
mod looks; // looks.rt: looks at the end of a list
mod making; // making.rt: random lists of calls
mod pieces; // pieces.rt: random lists handed over in pieces

fn main() {
    pieces::all();
    damaged::all();
    long::all();
}
