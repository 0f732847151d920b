// The school's own prices first (document 02, A12): the product's call beside the reference, answers and rows; and what
// the comparison says of results with a fault planted.
#![tactic(auto)]

mod calls; // calls.rt: a call, what it gave and what it should give
mod cases; // cases.rt: rows written out, on standard input
mod draws; // draws.rt: random calls
mod faults; // faults.rt: results with a fault planted

use reference::script::SCRIPT_ROOM;

fn main() {
    let mut text = [0; SCRIPT_ROOM];
    io::read_full(0, &mut text);
    draws::all(cases::all(&text), 6400).report(
        b"written out\nthe school's row\nthe shipped row\nanswer 9\nanswer 14\nanswer 29\nanswer 30\nanother answer\nanother length\nanother number\nthe other list\nthe next row\nthe next place\n",
    );
}
