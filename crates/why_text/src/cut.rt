// The line of a cut: its vertices upwards, and its value.
ghost use Rattle.std.specs.Prelude.{◌≤◌, ◌<◌};
ghost use Rattle.base.specs.Lists.{join_below};
ghost use Rattle.instance.specs.Limits.{max_vertices};
ghost use Rattle.text.specs.Buffer.{Room, Puts};
ghost use Rattle.why_text.specs.Cut.{member_text, cut_line};

use checks::sets::is_inside;
use instance::limits::MAX_VERTICES;
use text::buffer::put_bytes;
use text::lines::{put_labelled, put_line};

fn put_member(set: u32, v: u32, out: &mut [u8], at: usize) -> usize
    requires v_lt_max_vertices { v < max_vertices }
    requires room { Room (member_text set v) out.old at }
    ensures { Puts (member_text set v) out.old out.new at result }
{
    if is_inside(set, v) {
        return put_labelled(b" ", v, out, at);
    }
    at
}

// The vertices below n of a set.
fn put_members(set: u32, n: u32, out: &mut [u8], at: usize) -> usize
    requires n_le_max_vertices { n ≤ max_vertices }
    requires room { Room (join_below n (member_text set)) out.old at }
    ensures { Puts (join_below n (member_text set)) out.old out.new at result }
{
    let mut next = at;
    for v in 0..n {
        next = put_member(set, v, out, next);
    }
    next
}

pub fn put_cut(set: u32, value: u32, out: &mut [u8], at: usize) -> usize
    requires { Room (cut_line set value) out.old at }
    ensures { Puts (cut_line set value) out.old out.new at result }
{
    let named = put_bytes(b"cut", out, at);
    let listed = put_members(set, MAX_VERTICES, out, named);
    put_line(b" pence ", value, out, listed)
}
