// The arcs from a tail to a set of heads: those that there are, and whether a record of several arcs names arcs alone.
ghost use Rattle.std.specs.Prelude.{◌≡◌, ◌≤◌, ◌<◌, length};
ghost use Rattle.base.specs.Digits.{digit};
ghost use Rattle.instance.specs.Limits.{max_vertices, cells};
ghost use Rattle.instance.specs.Matrix.{unmarked};
ghost use Rattle.commands.specs.Heads.{names_arc, heads_of};
ghost use Rattle.commands.specs.Model.{old_marks};
ghost use Rattle.commands.specs.Valid.{head_ok, record_ok};
ghost use Rattle.heads.specs.RecordMarks.{record_marks};

use checks::arc::is_arc;
use checks::sets::is_inside;
use instance::limits::{BANNED, CELLS, MAX_VERTICES};

// Whether a head is in the set and has an arc from the tail.
fn names_arc(weights: &[u32; CELLS], n: u32, root: u32, tail: u32, heads: u32, head: u32) -> bool
    requires { (n ≤ max_vertices) × (length weights.now ≡ cells) × (head < max_vertices) }
    ensures { result ≡ names_arc (unmarked n root weights.now) tail heads head }
{
    if is_inside(heads, head) {
        return is_arc(weights, n, root, tail, head);
    }
    false
}

// The heads of a set that have an arc from the tail.
pub fn arc_heads(weights: &[u32; CELLS], n: u32, root: u32, tail: u32, heads: u32) -> u32
    requires { (n ≤ max_vertices) × (length weights.now ≡ cells) }
    ensures { result ≡ heads_of (names_arc (unmarked n root weights.now) tail heads) }
{
    let mut arcs: u32 = 0;
    for head in 0..MAX_VERTICES {
        if names_arc(weights, n, root, tail, heads, head) {
            arcs += 1u32 << head;
        }
    }
    arcs
}

// Whether a head of a record of several arcs is in the set only where there is an arc, and restores a mark in range.
fn is_head_ok(
    weights: &[u32; CELLS],
    n: u32,
    root: u32,
    tail: u32,
    heads: u32,
    old: u64,
    head: u32,
) -> bool
    requires { (n ≤ max_vertices) × (length weights.now ≡ cells) × (head < max_vertices) }
    ensures { result ≡ head_ok (unmarked n root weights.now) tail heads (digit 4 old head) head }
{
    if !is_inside(heads, head) {
        return true;
    }
    if !is_arc(weights, n, root, tail, head) {
        return false;
    }
    (old >> (2 * head)) % 4 <= (BANNED as u64)
}

// A record of several arcs: it names one at least, and every head is as it must be.
pub fn are_heads_ok(
    weights: &[u32; CELLS],
    n: u32,
    root: u32,
    tail: u32,
    heads: u32,
    old: u64,
) -> bool
    requires { (n ≤ max_vertices) × (length weights.now ≡ cells) }
    ensures { result ≡ record_ok (unmarked n root weights.now) (old_marks tail heads (record_marks heads old)) }
{
    if heads == 0 {
        return false;
    }
    for head in (0..MAX_VERTICES).rev() {
        if !is_head_ok(weights, n, root, tail, heads, old, head) {
            return false;
        }
    }
    true
}
