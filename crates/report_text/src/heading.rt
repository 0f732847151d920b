// The first two lines: the instance's numbers and its outcome.
ghost use Rattle.text.specs.Buffer.{Room, Puts};
ghost use Rattle.report_text.specs.Heading.{header_line, outcome_line};

use instance::Outcome;
use text::buffer::put_bytes;
use text::lines::{put_line, put_three};

pub fn put_header(n: u32, root: u32, budget: u32, out: &mut [u8], at: usize) -> usize
    requires { Room (header_line n root budget) out.old at }
    ensures { Puts (header_line n root budget) out.old out.new at result }
{
    put_three(
        b"positions ",
        n,
        b" root ",
        root,
        b" budget ",
        budget,
        out,
        at,
    )
}

pub fn put_outcome(outcome: Outcome, out: &mut [u8], at: usize) -> usize
    requires { Room (outcome_line outcome) out.old at }
    ensures { Puts (outcome_line outcome) out.old out.new at result }
{
    match outcome {
        Outcome::Plan(total) => put_line(b"plan ", total, out, at),
        Outcome::Over(total) => put_line(b"over ", total, out, at),
        Outcome::NoTree => put_bytes(b"none\n", out, at),
    }
}
