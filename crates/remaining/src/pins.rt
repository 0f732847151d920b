// The pins into each head, summed up.
ghost use Rattle.std.specs.Prelude.{◌≡◌, ◌≤◌};
ghost use Rattle.instance.specs.Limits.{max_vertices};
ghost use Rattle.instance.specs.Instance.{without_budget};
ghost use Rattle.instance.specs.Arborescence.{is_pinned as pinned-arc};
ghost use Rattle.remaining.specs.Pins.{allows, with_pin, Pins, PinTable};

use checks::arc::is_arc;
use instance::limits::{CELLS, PINNED, VERTICES};

// The pins into a head: none, one from this tail, or several.
#[derive(Clone, Copy, Debug, PartialEq, Eq)]
pub enum Pin {
    None,
    One(u32),
    Several,
}

impl Pin {
    // One pin more, from this tail.
    fn with(self, tail: u32) -> Pin
        ensures { result ≡ with_pin self tail }
    {
        match self {
            Pin::None => Pin::One(tail),
            Pin::One(_) => Pin::Several,
            Pin::Several => Pin::Several,
        }
    }

    // Whether an arc from this tail remains.
    pub(crate) fn allows(self, tail: u32) -> bool
        ensures { result ≡ allows self tail }
    {
        match self {
            Pin::None => true,
            Pin::One(only) => only == tail,
            Pin::Several => false,
        }
    }
}

pub fn is_pinned<'a>(
    weights: &'a [u32; CELLS],
    marks: &'a [u8; CELLS],
    n: u32,
    root: u32,
    tail: u32,
    head: u32,
) -> bool
    requires { (n ≤ max_vertices) }
    ensures { result ≡ pinned-arc (without_budget n root weights.now marks.now) tail head }
{
    if !is_arc(weights, n, root, tail, head) {
        return false;
    }
    let i = (32 * tail + head) as usize;
    marks[i] == PINNED
}

fn pins_into<'a>(
    weights: &'a [u32; CELLS],
    marks: &'a [u8; CELLS],
    n: u32,
    root: u32,
    head: u32,
) -> Pin
    requires { (n ≤ max_vertices) }
    ensures { Pins (without_budget n root weights.now marks.now) head n result }
{
    let mut pin = Pin::None;
    for g in 0..n {
        if is_pinned(weights, marks, n, root, g, head) {
            pin = pin.with(g);
        }
    }
    pin
}

pub fn pin_table<'a>(
    weights: &'a [u32; CELLS],
    marks: &'a [u8; CELLS],
    n: u32,
    root: u32,
) -> [Pin; VERTICES]
    requires { (n ≤ max_vertices) }
    ensures { PinTable (without_budget n root weights.now marks.now) n result }
{
    let mut table = [Pin::None; VERTICES];
    for head in 0..n {
        table[head as usize] = pins_into(weights, marks, n, root, head);
    }
    table
}
