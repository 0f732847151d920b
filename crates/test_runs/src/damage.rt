// Calls with one thing changed: a cell, a pair, the count, or the length of a list or a buffer.
use crate::buffers::ROOM;
use crate::calls;
use crate::calls::Call;
use reference::random::Random;
use reference_runs::places;

pub const WAYS: u32 = 11;

// A place less than is needed, or a count outside 1 to 32, or of one vertex more than the lists were made for.
fn with_number(c: Call, way: u32, g: Random) -> Call {
    let mut d = c;
    let short = places::cells(c.n % 64).wrapping_sub(1);
    let counts = [0, 33, 4294967295, c.n.wrapping_add(1)];
    match way {
        6 => d.weights_length = short,
        7 => d.marks_length = short,
        8 => d.states_length = short,
        9 => d.replacements_length = short,
        _ => d.n = counts[(g.word() % 4) as usize],
    }
    d
}

// Weights: no run, the least and the greatest number that is no price, two prices. Marks: all, and the least and the
// greatest number that is none. A mark alone, a weight alone, or both; in a cell, or in both cells of a pair.
pub fn damaged(c: Call, g: Random, way: u32) -> Call {
    if 5 < way {
        return with_number(c, way, g);
    }
    let cell = g.below(places::cells(c.n % 64));
    let at = cell as usize % ROOM;
    let weights = [1048575, 1048576, 4294967295, 0, 7];
    let marks = [0, 1, 2, 3, 255];
    let pick = g.next().word();
    let weight = if way % 3 == 0 {
        c.weights[at]
    } else {
        weights[(pick % 5) as usize]
    };
    let mark = if way % 3 == 1 {
        c.marks[at]
    } else {
        marks[(pick / 8 % 5) as usize]
    };
    if way < 3 {
        return calls::with_cell(c, cell, weight, mark);
    }
    calls::with_pair(c, cell, weight, mark)
}
