// The states of all arcs, from the table of the usable ones.
#![tactic(auto)]

pub mod show; // show.rt: the states, into the caller's buffer
