// Text written into a caller's buffer: bytes, numbers in decimal, and lines of labels and numbers.
//
// A function `put_..` writes one piece of text from the place `at` on and returns the place after it. It requires that
// there is room, so that a caller measures once and pieces can follow each other without tests; what it leaves is said
// by `Puts` (specs/Buffer.antt).
#![tactic(auto)]

pub mod buffer; // buffer.rt: bytes
pub mod decimal; // decimal.rt: numbers
pub mod lines; // lines.rt: labels with numbers, and lines of them
