// Every line of the answer.
ghost use Rattle.std.specs.Prelude.{◌≤◌, length};
ghost use Rattle.text.specs.Buffer.{Room, Puts, Filled};
ghost use Rattle.why_text.specs.declared.lines.Line.TheVariants.{Banned, Rival, Excluded, ExcludedNone, Optional, Mandatory};
ghost use Rattle.why_text.specs.Lines.{line_text, max_line};

use crate::cut::put_cut;
use crate::endings::{put_arc, put_limit, put_setter};
use crate::grouped::{put_amount, put_amount_line};
use report_text::put_feed;
use text::buffer::put_bytes;
use text::lines::put_line;

// The longest line (`excluded_fits` and `longest_line` in proofs/): an arc, a total, a cheapest total and a budget,
// each number as long as one of 32 bits can be.
pub const MAX_LINE: usize = 145;

// A line. The first is one of Banned, Rival, Excluded, ExcludedNone, Optional, Mandatory and MandatoryNone, or a
// refusal alone; the others tell the trees and the cuts that prove it.
#[derive(Clone, Copy)]
pub enum Line {
    // banned: by the recorded press at this place, from 1, of so many; 0 for none
    Banned {
        place: u32,
        count: u32,
    },
    // kept out by the pinned arc from `other` into the same head, by whom in the same way
    Rival {
        other: u32,
        head: u32,
        place: u32,
        count: u32,
    },
    // the cheapest total with it, that of all trees, and the budget
    Excluded {
        tail: u32,
        head: u32,
        total: u32,
        least: u32,
        budget: u32,
    },
    // no tree has it
    ExcludedNone {
        tail: u32,
        head: u32,
    },
    // the total of a tree with it
    Optional(u32),
    // the cheapest total without it, that of all trees, and the budget
    Mandatory {
        total: u32,
        least: u32,
        budget: u32,
    },
    // there is no tree without it
    MandatoryNone,
    // the total of the second tree that is told
    With(u32),
    Without(u32),
    // an arc of a tree, with its weight
    Feed {
        head: u32,
        tail: u32,
        weight: u32,
    },
    // a cut
    Cut {
        set: u32,
        value: u32,
    },
    // the number of a refusal
    Refused(u32),
}

fn put_banned(place: u32, count: u32, out: &mut [u8], at: usize) -> usize
    requires { Room (line_text (Banned place count)) out.old at }
    ensures { Puts (line_text (Banned place count)) out.old out.new at result }
{
    let next = put_bytes(b"closed: banned on the card", out, at);
    put_setter(place, count, out, next)
}

fn put_rival(other: u32, head: u32, place: u32, count: u32, out: &mut [u8], at: usize) -> usize
    requires { Room (line_text (Rival other head place count)) out.old at }
    ensures { Puts (line_text (Rival other head place count)) out.old out.new at result }
{
    let named = put_arc(b"closed: ", other, head, out, at);
    let next = put_bytes(b" is pinned on the card", out, named);
    put_setter(place, count, out, next)
}

// tail, head: the arc. total, least: the cheapest with it and of all. The line goes into `out` from the place `at` on.
fn put_excluded(
    tail: u32,
    head: u32,
    total: u32,
    least: u32,
    budget: u32,
    out: &mut [u8],
    at: usize,
) -> usize
    requires { Room (line_text (Excluded tail head total least budget)) out.old at }
    ensures { Puts (line_text (Excluded tail head total least budget)) out.old out.new at result }
{
    let named = put_arc(b"closed: the cheapest tree with ", tail, head, out, at);
    let next = put_amount(b" costs ", total, out, named);
    put_limit(least, budget, out, next)
}

fn put_excluded_none(tail: u32, head: u32, out: &mut [u8], at: usize) -> usize
    requires { Room (line_text (ExcludedNone tail head)) out.old at }
    ensures { Puts (line_text (ExcludedNone tail head)) out.old out.new at result }
{
    let next = put_arc(b"closed: no tree has ", tail, head, out, at);
    out[next] = b'\n';
    next + 1
}

fn put_mandatory(total: u32, least: u32, budget: u32, out: &mut [u8], at: usize) -> usize
    requires { Room (line_text (Mandatory total least budget)) out.old at }
    ensures { Puts (line_text (Mandatory total least budget)) out.old out.new at result }
{
    let next = put_amount(b"sure: without it the cheapest costs ", total, out, at);
    put_limit(least, budget, out, next)
}

// Writes the line from the beginning of a buffer that has room for each on and returns its length; the bytes after it
// keep their contents.
pub fn write_line(line: Line, out: &mut [u8]) -> usize
    requires { max_line ≤ length out.old }
    ensures { Filled (line_text line) out.old out.new result × (result ≤ max_line) }
{
    match line {
        Line::Banned { place, count } => put_banned(place, count, out, 0),
        Line::Rival {
            other,
            head,
            place,
            count,
        } => put_rival(other, head, place, count, out, 0),
        Line::Excluded {
            tail,
            head,
            total,
            least,
            budget,
        } => put_excluded(tail, head, total, least, budget, out, 0),
        Line::ExcludedNone { tail, head } => put_excluded_none(tail, head, out, 0),
        Line::Optional(total) => put_amount_line(b"open: this tree uses it: total ", total, out, 0),
        Line::Mandatory {
            total,
            least,
            budget,
        } => put_mandatory(total, least, budget, out, 0),
        Line::MandatoryNone => put_bytes(b"sure: without it there is no tree\n", out, 0),
        Line::With(total) => put_amount_line(b"with it: total ", total, out, 0),
        Line::Without(total) => put_amount_line(b"without it: total ", total, out, 0),
        Line::Feed { head, tail, weight } => put_feed(head, tail, weight, out, 0),
        Line::Cut { set, value } => put_cut(set, value, out, 0),
        Line::Refused(answer) => put_line(b"refused ", answer, out, 0),
    }
}
