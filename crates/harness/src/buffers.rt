// The buffers that the tests lend: longer than any call needs, lent whole or in part, and filled so that a touched
// place shows.
use reference::access;

// Room for parents, states and cuts.
pub const PARENTS: usize = 40;

pub const STATES: usize = 1100;

pub const CUTS: usize = 130;

// What stands in a buffer before a call.
pub const BYTE: u8 = 170;

pub const WORD: u32 = 2863311530;

// Whether the places from one up to another are as before.
pub fn bytes_untouched(s: &[u8], from: u32, to: u32) -> bool {
    access::all_are(s, from, to, BYTE)
}

pub fn words_untouched(s: &[u32], from: u32, to: u32) -> bool {
    access::all_are(s, from, to, WORD)
}
