// How many bits a card has, and how many bytes.
ghost use Rattle.std.specs.Prelude.{◌≡◌, ◌≤◌};
ghost use Rattle.instance.specs.Limits.{max_vertices};
ghost use Rattle.card_format.specs.Card.{bits_needed, bytes_needed};

use crate::widths::{CELL_WIDTH, HEADER_WIDTH};

// "36 + 22 times (n − 1) squared bits". Document 01 has the lengths of cards "held as a table"; document 02, A4, amends
// it: "The 32 card lengths are to be worked out by arithmetic and the table dropped."
pub fn needed_bits(n: u32) -> usize
    requires { (1 ≤ n) × (n ≤ max_vertices) }
    ensures { result ≡ bits_needed n }
{
    let others = (n - 1) as usize;
    HEADER_WIDTH + CELL_WIDTH * (others * others)
}

// In whole bytes.
pub fn needed_length(n: u32) -> usize
    requires { (1 ≤ n) × (n ≤ max_vertices) }
    ensures { result ≡ bytes_needed n }
{
    let bits = needed_bits(n);
    (bits + 7) / 8
}
