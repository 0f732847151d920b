// Reads a card on standard input and prints its price list on standard output; on standard error it says what goes with
// the list, the count of positions, the root and the budget, and in a second line whether the card has marks or
// records, which a list has not. A refused card writes nothing on standard output, and its number on standard error. A
// read or a write that fails is named there too. The list is proved in `price_card`; this program only reads and
// writes.
#![tactic(auto)]

use card_input::{ReadFailed, STDERR, STDOUT, read_input};
use planner::MAX_HISTORY_CARD;
use price_card::{CardWeights, MAX_LIST, list_weights, weights_on_card};
use report_text::put_header;

// One byte more than the longest card of either kind: what follows does not matter (long_by_part in
// history_format/proofs/LongHistory.antt).
const MAX_INPUT: usize = MAX_HISTORY_CARD + 1;

// No line on standard error is longer.
const MAX_LINE: usize = 64;

fn say_refusal(answer: u32) {
    io::write_all(STDERR, b"refused ");
    io::print_decimal(STDERR, answer as u64);
    io::write_all(STDERR, b"\n");
}

// What goes with the list.
fn say_numbers(n: u32, root: u32, budget: u32, marked: bool) {
    let mut line = [0u8; MAX_LINE];
    let end = put_header(n, root, budget, &mut line, 0);
    io::write_all(STDERR, &line[..end]);
    if marked {
        io::write_all(STDERR, b"marked\n");
    }
}

// Prints the list, or the line of a refusal; false if the list could not be written.
fn print_list(taken: CardWeights) -> bool {
    let mut list = [0u8; MAX_LIST];
    let listed = list_weights(taken, &mut list);
    let answer = listed.answer;
    if answer != 0 {
        say_refusal(answer);
        return true;
    }
    let end = listed.length;
    if !io::write_all(STDOUT, &list[..end]) {
        return false;
    }
    say_numbers(listed.n, listed.root, listed.budget, listed.marked);
    true
}

// Reads a card and takes its weights. The card is let go here, before a list takes its place on the stack.
fn read_weights(rt: &HostRuntime) -> Result<CardWeights, ReadFailed> {
    let mut card = [0u8; MAX_INPUT];
    let length = read_input(rt, &mut card)?;
    Ok(weights_on_card(&card[..length]))
}

fn main(rt: HostRuntime) {
    let Ok(taken) = read_weights(&rt) else {
        io::write_all(STDERR, b"print_prices: cannot read standard input\n");
        return;
    };
    if !print_list(taken) {
        io::write_all(STDERR, b"print_prices: cannot write standard output\n");
    }
}
