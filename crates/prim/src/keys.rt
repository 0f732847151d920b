// The keys of a graph's edges: 0 for a pinned one, a free one's weight and 1, and NO_KEY for a banned one and for what
// is no edge. The least key is then the edge to take first.
ghost use Rattle.std.specs.Prelude.{◌≡◌, ◌≢◌, ◌<◌};
ghost use Rattle.spanning.specs.Graph.{graph_of};
ghost use Rattle.spanning.specs.Refusal.{ValidGraph};
ghost use Rattle.spanning.specs.Keys.{edge_key};
ghost use Rattle.spanning.specs.KeyTables.{table_key, key_table};

use instance::limits::{BANNED, CELLS, PINNED};

// One more than "no arc", and so what a place with no edge and no mark comes to.
pub const NO_KEY: u32 = 1_048_576;

fn edge_key(weights: &[u32], marks: &[u8], n: u32, i: u32, j: u32) -> u32
    requires { ValidGraph (graph_of n weights.now marks.now) × (i < n) × (j < n) × (i ≢ j) }
    ensures { result ≡ edge_key (graph_of n weights.now marks.now) i j }
{
    let place = (i * n + j) as usize;
    match marks[place] {
        PINNED => 0,
        BANNED => NO_KEY,
        _ => weights[place] + 1,
    }
}

// The key in a cell of the table.
fn cell_key(weights: &[u32], marks: &[u8], n: u32, c: u32) -> u32
    requires { ValidGraph (graph_of n weights.now marks.now) }
    ensures { result ≡ table_key (graph_of n weights.now marks.now) c }
{
    let i = c / 32;
    let j = c % 32;
    if i < n && j < n && i != j {
        return edge_key(weights, marks, n, i, j);
    }
    NO_KEY
}

pub fn key_table(weights: &[u32], marks: &[u8], n: u32) -> [u32; CELLS]
    requires { ValidGraph (graph_of n weights.now marks.now) }
    ensures { result ≡ key_table (graph_of n weights.now marks.now) }
{
    let mut table = [0u32; CELLS];
    for c in 0..CELLS {
        table[c] = cell_key(weights, marks, n, c as u32);
    }
    table
}
