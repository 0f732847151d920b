// Why a link is closed, open or sure: both calls beside the reference, on the documents' sheets with results worked out
// by hand, on small boards with every tree listed, on large boards, and where they are refused; and what the comparison
// says of results with a fault planted.
#![tactic(auto)]

mod asked; // asked.rt: both calls on one arc, and the state that they say
mod calls; // calls.rt: the two calls, and what they gave
mod cases; // cases.rt: results worked out by hand, on standard input
mod compared; // compared.rt: whether a result is right
mod faults; // faults.rt: results with a fault planted
mod large; // large.rt: boards of 6 to 32 vertices
mod refused; // refused.rt: refusals in their order
mod sessions; // sessions.rt: boards after random calls
mod small; // small.rt: boards of 1 to 5 vertices

use reference::script::SCRIPT_ROOM;
use reference::tally::Tally;

// The names of the counts, in the order of sessions.rt, asked.rt, faults.rt and large.rt.
fn report(tally: Tally) {
    tally.report(
        b"boards\nrecords on their cards\ncalls\naccepted\ngroup presses\nrecords taken back\nreasons\nplans without a link\nstates said by both\nbanned by the card\nbanned by a record of the card\nbanned by a press\nbanned by a group press\nrival by the card\nrival by a record of the card\nrival by a press\nrival by a group press\nwith it a plan\nwith it over\nwith it none\nwithout it a plan\nwithout it over\nwithout it none\nclosed by its price\nopen\nsure\npinned with a rival\nseveral rivals\npinned and taken out\nbounds above the budget\npositions not below n\nno link\nanother reason\na byte touched\na word touched\nanother answer\nplace one more\nplace one less\nanother rival\nanother outcome\nanother total\na pair more\nits own feeder\nan amount one more\nthe root in a set\na word behind the pairs\nanother cheapest tree\nlooks with it pinned\nlooks with it banned\n",
    );
}

fn main() {
    let mut text = [0; SCRIPT_ROOM];
    io::read_full(0, &mut text);
    cases::all(&text);
    report(small::run(1000));
    report(large::run(90));
    refused::all();
}
