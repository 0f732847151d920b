// The rows of states.
ghost use Rattle.std.specs.Prelude.{◌+◌, ◌*◌, ◌≤◌, ◌<◌, length, get_or};
ghost use Rattle.base.specs.Lists.{join_below};
ghost use Rattle.instance.specs.Limits.{max_vertices};
ghost use Rattle.text.specs.Buffer.{Room, Puts};
ghost use Rattle.text.specs.Decimal.{decimal};
ghost use Rattle.report_text.specs.Rows.{row_line, row_lines};

use text::decimal::put_decimal;
use text::lines::put_labelled;

// The n states from the place `from` on, each in decimal.
fn put_states(states: &[u8], n: u32, from: usize, out: &mut [u8], at: usize) -> usize
    requires n_in_bounds { from + n ≤ length states.now }
    requires room { Room (join_below n (λ h. decimal (get_or states.now (from + h) 0))) out.old at }
    ensures { Puts (join_below n (λ h. decimal (get_or states.now (from + h) 0))) out.old out.new at result }
{
    let mut next = at;
    for h in 0..n as usize {
        next = put_decimal(states[from + h] as u32, out, next);
    }
    next
}

fn put_row(states: &[u8], n: u32, tail: u32, out: &mut [u8], at: usize) -> usize
    requires n_le_max_vertices { n ≤ max_vertices }
    requires tail_lt_n { tail < n }
    requires n_in_bounds { n * n ≤ length states.now }
    requires room { Room (row_line states.now n tail) out.old at }
    ensures { Puts (row_line states.now n tail) out.old out.new at result }
{
    let named = put_labelled(b"row ", tail, out, at);
    out[named] = b' ';
    let last = put_states(states, n, tail as usize * n as usize, out, named + 1);
    out[last] = b'\n';
    last + 1
}

pub fn put_rows(states: &[u8], n: u32, out: &mut [u8], at: usize) -> usize
    requires n_le_max_vertices { n ≤ max_vertices }
    requires n_in_bounds { n * n ≤ length states.now }
    requires room { Room (row_lines states.now n) out.old at }
    ensures { Puts (row_lines states.now n) out.old out.new at result }
{
    let mut next = at;
    for tail in 0..n {
        next = put_row(states, n, tail, out, next);
    }
    next
}
