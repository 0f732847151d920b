// Price lists as text, written from document 02, A3, alone and in the plainest way, with no crate of the product: what
// a reading and a writing have to give. A text is split into lines at its line feeds, a line into numbers at its
// spaces. A number stays a run of digits, held against another by their counts of digits and then digit by digit.
#![tactic(auto)]

pub mod line; // line.rt: a line, and what is wrong with it
pub mod numerals; // numerals.rt: runs of digits
pub mod places; // places.rt: reads and stores that ask nothing of their caller
pub mod read; // read.rt: a whole list read
pub mod refusals; // refusals.rt: the document's numbers
pub mod write; // write.rt: a list written
