// Parts of the first line: an arc, who set its mark, and what the budget is.
ghost use Rattle.text.specs.Buffer.{Room, Puts};
ghost use Rattle.why_text.specs.Endings.{arc_text, setter_end, least_text, limit_end};

use crate::grouped::{put_amount, put_amount_line};
use text::buffer::put_bytes;
use text::lines::{put_labelled, put_line};

// An arc behind a label: the three bytes are an arrow to the right.
pub fn put_arc(label: &[u8], tail: u32, head: u32, out: &mut [u8], at: usize) -> usize
    requires { Room (arc_text label.now tail head) out.old at }
    ensures { Puts (arc_text label.now tail head) out.old out.new at result }
{
    let next = put_labelled(label, tail, out, at);
    put_labelled(b"\xE2\x86\x92", head, out, next)
}

// The recorded press that set a mark, by its place among so many, and the line's end; 0 for none.
pub fn put_setter(place: u32, count: u32, out: &mut [u8], at: usize) -> usize
    requires { Room (setter_end place count) out.old at }
    ensures { Puts (setter_end place count) out.old out.new at result }
{
    if place == 0 {
        return put_bytes(b"\n", out, at);
    }
    let next = put_labelled(b", by its recorded press ", place, out, at);
    put_line(b" of ", count, out, next)
}

// The cheapest total of all, where it is over the budget.
fn put_least(least: u32, budget: u32, out: &mut [u8], at: usize) -> usize
    requires { Room (least_text least budget) out.old at }
    ensures { Puts (least_text least budget) out.old out.new at result }
{
    if budget < least {
        return put_amount(b", the cheapest of all costs ", least, out, at);
    }
    at
}

// What a total is held to, and the line's end.
pub fn put_limit(least: u32, budget: u32, out: &mut [u8], at: usize) -> usize
    requires { Room (limit_end least budget) out.old at }
    ensures { Puts (limit_end least budget) out.old out.new at result }
{
    let next = put_least(least, budget, out, at);
    put_amount_line(b", the budget is ", budget, out, next)
}
