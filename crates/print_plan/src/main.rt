// Reads a card on standard input and prints its plan, or the line of its refusal, on standard output; it does nothing
// else. A read or a write that fails is named on standard error. What is printed is proved in `report`; this program
// only reads and writes.
#![tactic(auto)]

use card_input::{STDERR, STDOUT, read_input};
use report::{MAX_HISTORY_CARD, MAX_TEXT, report};

// One byte more than the longest card of either kind: what follows does not matter (first_bytes_enough in
// report/proofs/LongCards.antt).
const MAX_INPUT: usize = MAX_HISTORY_CARD + 1;

fn main(rt: HostRuntime) {
    let mut card = [0u8; MAX_INPUT];
    let Ok(length) = read_input(&rt, &mut card) else {
        io::write_all(STDERR, b"print_plan: cannot read standard input\n");
        return;
    };
    let mut text = [0u8; MAX_TEXT];
    let reported = report(&card[..length], &mut text);
    let end = reported.length;
    if !io::write_all(STDOUT, &text[..end]) {
        io::write_all(STDERR, b"print_plan: cannot write standard output\n");
    }
}
