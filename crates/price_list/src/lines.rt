// A line of a text: its three numbers, and what is wrong with it. The lines before it are known by the table of weights
// that they gave, where a cell that no line named holds NO_ARC, which no line can give.
ghost use Rattle.std.specs.Prelude.{◌≡◌, ◌≤◌, length};
ghost use Rattle.instance.specs.Limits.{max_vertices, cells};
ghost use Rattle.instance.specs.RefusalNumbers.{answer_of};
ghost use Rattle.price_list.specs.Lines.{ReadsLine, table_refusal, TakesLine};

use crate::numbers::read_number;
use instance::limits::{CELLS, MAX_WEIGHT, NO_ARC};
use instance::refusals::Refusal;

// The numbers of a line, each at most CAP, and the place after it.
#[derive(Clone, Copy)]
pub struct LineRead {
    pub tail: u32,
    pub head: u32,
    pub weight: u32,
    pub next: usize,
}

// The line at a place, if one stands there.
fn read_line(text: &[u8], at: usize) -> Option<LineRead>
    requires { at ≤ length text.now }
    ensures { ReadsLine text.now at result }
{
    let tail = read_number(text, at, b' ')?;
    let head = read_number(text, tail.next, b' ')?;
    let weight = read_number(text, head.next, b'\n')?;
    Some(LineRead {
        tail: tail.value,
        head: head.value,
        weight: weight.value,
        next: weight.next,
    })
}

// What is wrong with an arc and its weight.
fn check_numbers(
    table: &[u32; CELLS],
    n: u32,
    root: u32,
    tail: u32,
    head: u32,
    weight: u32,
) -> Result<(), Refusal>
    requires { (n ≤ max_vertices) × (length table.now ≡ cells) }
    ensures { answer_of result ≡ table_refusal n root table.now tail head weight }
{
    if n <= tail {
        return Err(Refusal::LineNoVertex);
    }
    if n <= head {
        return Err(Refusal::LineNoVertex);
    }
    if tail == head {
        return Err(Refusal::LineNoArc);
    }
    if head == root {
        return Err(Refusal::LineNoArc);
    }
    if MAX_WEIGHT < weight {
        return Err(Refusal::WeightTooHigh);
    }
    if table[(32 * tail + head) as usize] != NO_ARC {
        return Err(Refusal::NamedBefore);
    }
    Ok(())
}

// Judges the line at a place and puts its weight into the table; gives the place after it.
pub fn take_line(
    text: &[u8],
    at: usize,
    n: u32,
    root: u32,
    table: &mut [u32; CELLS],
) -> Result<usize, Refusal>
    requires { (at ≤ length text.now) × (n ≤ max_vertices) × (length table.old ≡ cells) }
    ensures { TakesLine text.now at n root table.old table.new result }
{
    let Some(line) = read_line(text, at) else {
        return Err(Refusal::BadLine);
    };
    check_numbers(table, n, root, line.tail, line.head, line.weight)?;
    table[(32 * line.tail + line.head) as usize] = line.weight;
    Ok(line.next)
}
