// Reads a card on standard input and prints on standard output why one of its links is closed, open or sure; its
// arguments are the link's feeder and fed position. A refusal is one line there. A wrong word, or a read or a write
// that fails, is named on standard error. The answer is proved in `planner`, the state in `witness` and each line in
// `why_text`; what the first line claims is true (`first_line_true`). This program reads, asks, and writes the lines
// one after the other; examples/check_why.sh holds their order to the links of the example cards.
#![tactic(auto)]

mod asking; // asking.rt: what the planner answers of a card
mod printing; // printing.rt: the lines of an answer

ghost use Rattle.std.specs.Prelude.{◌≤◌};
ghost use Rattle.instance.specs.Limits.{max_cuts};

use arguments::{argument_count, number_at};
use asking::{explain_card, plan_card_without, record_count};
use card_input::{STDERR, read_input};
use instance::limits::{CUT_WORDS, VERTICES};
use planner::{MAX_HISTORY_CARD, Reason, View, open_card};
use printing::{Planned, print_line, print_witnesses};
use why_text::Line;

// One byte more than the longest card of either kind: what follows does not matter (long_by_part in
// history_format/proofs/LongHistory.antt).
const MAX_INPUT: usize = MAX_HISTORY_CARD + 1;

// The state of the arc, by the plan with it and the one without it. A function of its own, so that no other board is on
// the stack when the card is opened here.
fn print_state(card: &[u8], tail: u32, head: u32, forced: Planned, deleted: Planned) -> bool
    requires { (forced.pairs ≤ max_cuts) × (deleted.pairs ≤ max_cuts) }
{
    let Ok(board) = open_card(card) else {
        // the card was opened before
        return true;
    };
    print_witnesses(board, tail, head, forced, deleted)
}

// The same, from the plan with it.
fn print_priced(card: &[u8], tail: u32, head: u32, forced: Planned) -> bool
    requires { forced.pairs ≤ max_cuts }
{
    let mut parents = [0u8; VERTICES];
    let mut cuts = [0u32; CUT_WORDS];
    let view = plan_card_without(card, tail, head, &mut parents, &mut cuts);
    let View::Shown(outcome, pairs) = view else {
        // what was planned with the arc is planned without it
        return true;
    };
    let deleted = Planned {
        outcome,
        pairs,
        parents,
        cuts,
    };
    print_state(card, tail, head, forced, deleted)
}

// Why, for the arc from tail to head of the card.
fn print_why(card: &[u8], tail: u32, head: u32) -> bool {
    let mut parents = [0u8; VERTICES];
    let mut cuts = [0u32; CUT_WORDS];
    let reason = explain_card(card, tail, head, &mut parents, &mut cuts);
    match reason {
        Reason::Banned(place) => print_line(Line::Banned {
            place,
            count: record_count(card),
        }),
        Reason::Rival(other, place) => print_line(Line::Rival {
            other: other.0,
            head,
            place,
            count: record_count(card),
        }),
        Reason::Priced(outcome, pairs) => {
            let forced = Planned {
                outcome,
                pairs,
                parents,
                cuts,
            };
            print_priced(card, tail, head, forced)
        }
        Reason::Refused(answer) => print_line(Line::Refused(answer)),
    }
}

fn print_input(rt: &HostRuntime, tail: u32, head: u32) {
    let mut card = [0u8; MAX_INPUT];
    let Ok(length) = read_input(rt, &mut card) else {
        io::write_all(STDERR, b"print_why: cannot read standard input\n");
        return;
    };
    if !print_why(&card[..length], tail, head) {
        io::write_all(STDERR, b"print_why: cannot write standard output\n");
    }
}

fn main(rt: HostRuntime) {
    if argument_count(&rt) != 3 {
        io::write_all(STDERR, b"print_why: usage: print_why FEEDER FED < card\n");
        return;
    }
    let (Some(tail), Some(head)) = (number_at(&rt, 1), number_at(&rt, 2)) else {
        io::write_all(
            STDERR,
            b"print_why: FEEDER and FED are numbers of at most 64 digits\n",
        );
        return;
    };
    print_input(&rt, tail, head);
}
