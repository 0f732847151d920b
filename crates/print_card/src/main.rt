// Reads a price list on standard input and writes its card on standard output; its arguments are the count of
// positions, the root and the budget. A refused list writes nothing there and one line on standard error: the number of
// the refusal, and the faulty line. A wrong word, or a read or a write that fails, is named there too. The card is
// proved in `price_card`; this program only reads and writes.
#![tactic(auto)]

mod judge; // judge.rt: an input that may be longer than a list can be

use arguments::{argument_count, number_at};
use card_input::{STDERR, STDOUT, read_input};
use judge::{InputRefused, MAX_READ, judge_input};
use price_card::MAX_CARD;
use price_list::Refused;

// One byte more than is judged, which says that there is more.
const MAX_INPUT: usize = MAX_READ + 1;

fn say_refused(refused: Refused) {
    io::write_all(STDERR, b"refused ");
    io::print_decimal(STDERR, u32::from(refused.refusal) as u64);
    if let Some(line) = refused.line {
        io::write_all(STDERR, b" line ");
        io::print_decimal(STDERR, line as u64);
    }
    io::write_all(STDERR, b"\n");
}

fn say_long(line: usize) {
    io::write_all(STDERR, b"refused long line ");
    io::print_decimal(STDERR, line as u64);
    io::write_all(STDERR, b"\n");
}

// The card of the list on standard input.
fn print_card(rt: &HostRuntime, n: u32, root: u32, budget: u32) {
    let mut list = [0u8; MAX_INPUT];
    let Ok(length) = read_input(rt, &mut list) else {
        io::write_all(STDERR, b"print_card: cannot read standard input\n");
        return;
    };
    let mut card = [0u8; MAX_CARD];
    match judge_input(&list[..length], n, root, budget, &mut card) {
        Ok(end) => {
            if !io::write_all(STDOUT, &card[..end]) {
                io::write_all(STDERR, b"print_card: cannot write standard output\n");
            }
        }
        Err(InputRefused::List(refused)) => say_refused(refused),
        Err(InputRefused::LongLine(line)) => say_long(line),
    }
}

fn main(rt: HostRuntime) {
    if argument_count(&rt) != 4 {
        io::write_all(
            STDERR,
            b"print_card: usage: print_card POSITIONS ROOT BUDGET < list > card\n",
        );
        return;
    }
    let (Some(n), Some(root), Some(budget)) = (
        number_at(&rt, 1),
        number_at(&rt, 2),
        number_at(&rt, 3),
    ) else {
        io::write_all(
            STDERR,
            b"print_card: POSITIONS, ROOT and BUDGET are numbers of at most 64 digits\n",
        );
        return;
    };
    print_card(&rt, n, root, budget);
}
