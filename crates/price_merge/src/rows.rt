// The rows that are used of two price lists, copied one behind the other.
ghost use Rattle.text.specs.Buffer.{Room, Puts};
ghost use Rattle.price_merge.specs.Rows.{rows_used};

use instance::Vertex;
use price_row::row_used;

// A row into the caller's words from a place on; gives the place after it.
// A loop: `copy_from_slice` would call `memmove` here, and the library for C needs `memcpy` and `memset` alone.
fn put_row(row: &[u32], out: &mut [u32], at: usize) -> usize
    requires { Room row.now out.old at }
    ensures { Puts row.now out.old out.new at result }
{
    let mut next = at;
    for w in row {
        out[next] = *w;
        next += 1;
    }
    next
}

// The row of each tail, one behind the other; gives the place after the last.
pub fn put_rows<'a>(school: &'a [u32], shipped: &'a [u32], n: u32, out: &mut [u32]) -> usize
    requires { Room (rows_used n school.now shipped.now) out.old 0 }
    ensures { Puts (rows_used n school.now shipped.now) out.old out.new 0 result }
{
    let mut answer: u32 = 0;
    let mut next: usize = 0;
    for tail in 0..n {
        let row = row_used(school, shipped, n, Vertex(tail), &mut answer);
        next = put_row(row, out, next);
    }
    next
}
