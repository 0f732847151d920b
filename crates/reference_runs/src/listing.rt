// All sets of runs of a graph of up to 5 vertices, which has up to 10 pairs: a set is a number, whose lowest bit stands
// for the first pair in the order of the cells.
use crate::choice::Choice;
use crate::places;
use crate::places::entry;

// The most vertices that a listing takes.
pub const MAX_LISTED: u32 = 5;

pub const SETS: usize = 1024;

// The total of a set that is a spanning tree and respects the marks.
fn total(weights: &[u32], marks: &[u8], n: u32, set: u32) -> Option<u32> {
    let mut c = Choice::empty();
    let mut rest = set;
    for cell in 0..places::cells(n) {
        if places::is_upper(n, cell) {
            c = c.with(
                n,
                cell,
                entry(weights, cell),
                entry(marks, cell),
                rest % 2 == 1,
            )?;
            rest /= 2;
        }
    }
    // a set with a bit that stands for no pair is none
    if rest != 0 {
        return None;
    }
    c.tree_total(n)
}

// The totals of all sets.
pub fn totals(weights: &[u32], marks: &[u8], n: u32) -> [Option<u32>; SETS] {
    let mut list = [None; SETS];
    for (place, set) in list.iter_mut().zip(0u32..) {
        if set.count_ones().wrapping_add(1) == n {
            *place = total(weights, marks, n, set);
        }
    }
    list
}

// The least total of the sets whose bits among some are those.
pub fn least(totals: &[Option<u32>], among: u32, those: u32) -> Option<u32> {
    (0u32..)
        .zip(totals)
        .filter(|(set, _)| set & among == those)
        .filter_map(|(_, total)| *total)
        .min()
}
