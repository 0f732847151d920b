// The feed lines: the arcs of the tree that is shown, with their weights.
ghost use Rattle.std.specs.Prelude.{◌≡◌, ◌≤◌, ◌<◌, length};
ghost use Rattle.base.specs.Lists.{join_below};
ghost use Rattle.instance.specs.Limits.{cells};
ghost use Rattle.text.specs.Buffer.{Room, Puts};
ghost use Rattle.report_text.specs.Feeds.{feed_line, listed_weight, feed_at, shows_tree, feed_lines};

use instance::Outcome;
use instance::limits::{CELLS, NO_ARC};
use text::lines::put_three;

// Whether feed lines are printed with the outcome.
pub fn shows_tree(outcome: Outcome) -> bool
    ensures { result ≡ shows_tree outcome }
{
    match outcome {
        Outcome::Plan(_) => true,
        Outcome::Over(_) => true,
        Outcome::NoTree => false,
    }
}

// The line of an arc.
pub fn put_feed(head: u32, tail: u32, weight: u32, out: &mut [u8], at: usize) -> usize
    requires { Room (feed_line head tail weight) out.old at }
    ensures { Puts (feed_line head tail weight) out.old out.new at result }
{
    put_three(b"feed ", head, b" from ", tail, b" price ", weight, out, at)
}

// The weight of the arc from tail to head; a cell that there is not holds no arc.
pub fn listed_weight(weights: &[u32; CELLS], tail: u8, head: u32) -> u32
    requires { length weights.now ≡ cells }
    ensures { result ≡ listed_weight weights.now tail head }
{
    let cell = 32 * tail as usize + head as usize;
    if cell < CELLS { weights[cell] } else { NO_ARC }
}

// The line of the arc into v, unless v is the root.
fn put_feed_at(
    weights: &[u32; CELLS],
    parents: &[u8],
    root: u32,
    v: u32,
    out: &mut [u8],
    at: usize,
) -> usize
    requires weights_len { length weights.now ≡ cells }
    requires v_in_bounds { v < length parents.now }
    requires room { Room (feed_at weights.now parents.now root v) out.old at }
    ensures { Puts (feed_at weights.now parents.now root v) out.old out.new at result }
{
    if v == root {
        return at;
    }
    let tail = parents[v as usize];
    let weight = listed_weight(weights, tail, v);
    put_feed(v, tail as u32, weight, out, at)
}

// The lines of all vertices.
fn put_arcs(
    weights: &[u32; CELLS],
    parents: &[u8],
    n: u32,
    root: u32,
    out: &mut [u8],
    at: usize,
) -> usize
    requires weights_len { length weights.now ≡ cells }
    requires n_in_bounds { n ≤ length parents.now }
    requires room { Room (join_below n (feed_at weights.now parents.now root)) out.old at }
    ensures { Puts (join_below n (feed_at weights.now parents.now root)) out.old out.new at result }
{
    let mut next = at;
    for v in 0..n {
        next = put_feed_at(weights, parents, root, v, out, next);
    }
    next
}

// The lines of an outcome that shows a tree; another has none. The parents are the tree's, the weights the instance's,
// with n vertices and that root; the lines go into `out` from the place `at` on.
pub fn put_feeds(
    weights: &[u32; CELLS],
    parents: &[u8],
    n: u32,
    root: u32,
    outcome: Outcome,
    out: &mut [u8],
    at: usize,
) -> usize
    requires weights_len { length weights.now ≡ cells }
    requires n_in_bounds { n ≤ length parents.now }
    requires room { Room (feed_lines weights.now parents.now n root outcome) out.old at }
    ensures { Puts (feed_lines weights.now parents.now n root outcome) out.old out.new at result }
{
    if shows_tree(outcome) {
        return put_arcs(weights, parents, n, root, out, at);
    }
    at
}
