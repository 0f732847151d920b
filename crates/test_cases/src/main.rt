// Instances, and what a look at them shows: the documents' own cases, random small ones against the listing of all
// their trees, and large ones by the documents' conditions.
#![tactic(auto)]

mod buffer_lines; // buffer_lines.rt: lines of the script on cards, lent buffers and plans
mod exact; // exact.rt: states of a large instance
mod first; // first.rt: the first cheapest tree of a large instance
mod history_lines; // history_lines.rt: lines on cards byte by byte
mod large; // large.rt: instances of 32 vertices
mod limits; // limits.rt: the same at the dearest price and the greatest budget
mod lines; // lines.rt: the documents' own cases
mod look_lines; // look_lines.rt: lines of the script on looks
mod planted; // planted.rt: results with one fault
mod small; // small.rt: random small instances

fn main() {
    lines::all();
    small::all();
    large::all();
    limits::all();
    first::all();
}
