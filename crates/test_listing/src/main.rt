// All plans of a board, listed in a lent buffer (document 02, A7), beside the reference's walk: result and buffer, and
// what the comparison says of results with a fault planted. The walk is held to the listing of all choices of feeders.
#![tactic(auto)]

mod cases; // cases.rt: the documents' own cases, small sheets, refusals
mod faults; // faults.rt: the comparison, and results with a fault planted
mod given; // given.rt: what a listing gave
mod large; // large.rt: sheets of 32 positions

use reference::tally::Tally;

fn report(tally: Tally) {
    tally.report(
        b"sheets\nwalks held to the documents\nwalks held to the listing of all choices\ncomplete\nat the limit\nno room\nanswer 15:\nanswer 26:\nwalks of 1000000 tries\na tree too many\na tree missing\ntwo trees swapped\nanother feeder\none try more\none try less\nanother ending\na byte after the trees\nthe last byte\na refusal's buffer\nanother answer\n",
    );
}

fn main() {
    report(cases::all(700));
    report(large::all(14));
}
