// The marks of the arcs from a tail to a set of heads, two bits a head: head h at bits 2h and 2h + 1.
ghost use Rattle.std.specs.Prelude.{◌≡◌, true, cond, ℕ, ◌≤◌, ◌<◌, length, get_or};
ghost use Rattle.base.specs.Digits.{from_digits, digit};
ghost use Rattle.instance.specs.Limits.{max_vertices, free, banned, cells};
ghost use Rattle.instance.specs.Instance.{cell};
ghost use Rattle.instance.specs.Cuts.{inside};
ghost use Rattle.commands.specs.Heads.{put_marks as marks_put};

use checks::sets::is_inside;
use instance::limits::{CELLS, MAX_VERTICES};

// The marks of the arcs to these heads, two bits a head; 0 at any other.
pub fn read_marks(marks: &[u8; CELLS], tail: u32, heads: u32) -> u64
    requires tail_lt_max_vertices { (tail < max_vertices) × (length marks.now ≡ cells) }
    requires by_index { (h : ℕ) → h < max_vertices → inside heads h ≡ true → get_or marks.now (cell tail h) free ≤ banned }
    ensures { result ≡ from_digits 4 max_vertices (λ h. cond (inside heads h) (get_or marks.now (cell tail h) free) free) }
{
    let mut value: u64 = 0;
    for head in 0..MAX_VERTICES {
        if is_inside(heads, head) {
            let mark = marks[(32 * tail + head) as usize];
            value += (mark as u64) << (2 * head);
        }
    }
    value
}

// Puts a mark at each of the arcs to these heads, from two bits a head.
pub fn put_marks(tail: u32, heads: u32, new: u64, marks: &mut [u8; CELLS])
    requires { (tail < max_vertices) × (length marks.old ≡ cells) }
    ensures { marks.new ≡ marks_put tail (inside heads) (digit 4 new) marks.old }
{
    for head in 0..MAX_VERTICES {
        if is_inside(heads, head) {
            marks[(32 * tail + head) as usize] = ((new >> (2 * head)) % 4) as u8;
        }
    }
}
