// Passive runs (document 02, A11): the product's call beside the reference, which lists all spanning trees of a small
// graph and plans a large one in another way. Answers, outcomes, whole buffers, the tree that was chosen; and what the
// comparison says of results with a fault planted.
#![tactic(auto)]

mod buffers; // buffers.rt: the room of lists and buffers
mod calls; // calls.rt: a call, what it gave and what it should give
mod cases; // cases.rt: graphs and refusals whose results are written out, on standard input
mod judging; // judging.rt: whether a result is right
mod damage; // damage.rt: calls with one thing changed
mod faults; // faults.rt: results with a fault planted
mod graphs; // graphs.rt: random graphs, as they are and damaged
mod making; // making.rt: how random graphs are made

use reference::script::SCRIPT_ROOM;
use reference::tally::Tally;

// The names of the counts, in the order of graphs.rt and of the kinds in faults.rt.
fn report(tally: Tally) {
    tally.report(
        b"written out\nlisted and planned\nplan\nover\nno tree\nanswer 14\nanswer 29\nanswer 30\nanswer 31\nanother answer\nanother outcome\nanother total\na state\nthe state after the last one\nthe last byte of its buffer\nthe first replacement cost\nthe word after the last one\nthe last word of its buffer\na replacement cost one way\na replacement cost both ways\nan edge left out\nan edge left out one way\nan edge more\nanother tree\na banned run in the tree\na pinned run outside it\n",
    );
}

fn main() {
    let mut text = [0; SCRIPT_ROOM];
    io::read_full(0, &mut text);
    report(graphs::small(cases::all(&text), 2000));
    report(graphs::large(Tally::zero(), 120));
}
