// Lines that a test program reads on its standard input. The first byte of a line says what it is, and every run of
// digits is a number; all other bytes are for the reader. Numbers after a colon are what the line expects; a line
// without one only sets something up.
use crate::access::byte;
use crate::call::{Call, Kind};
use crate::tally;
use crate::tally::Tally;

// How many bytes of a script are read.
pub const SCRIPT_ROOM: usize = 16384;

// More than the numbers of any line.
pub const NUMBERS: usize = 32;

// What was read of a line: its numbers stand from place 1 on, those that it expects after the inputs.
#[derive(Clone, Copy)]
pub struct Line {
    pub first: u8,
    pub inputs: u32,
    pub count: u32,
    pub numbers: [u32; NUMBERS],
    pub expects: bool,
    pub in_number: bool,
    pub is_whole: bool,
}

impl Line {
    pub fn empty() -> Line {
        Line {
            first: 0,
            inputs: 0,
            count: 0,
            numbers: [0; NUMBERS],
            expects: false,
            in_number: false,
            is_whole: false,
        }
    }

    pub fn number(&self, k: u32) -> u32 {
        self.numbers[k as usize % NUMBERS]
    }

    // The k-th number that the line expects, from 1.
    pub fn expected(&self, k: u32) -> u32 {
        self.number(self.inputs.wrapping_add(k))
    }

    // The line with another number at a place.
    pub fn with_fault(self, k: u32) -> Line {
        let mut l = self;
        let at = k as usize % NUMBERS;
        l.numbers[at] = l.numbers[at].wrapping_add(1);
        l
    }

    fn with_digit(self, digit: u32) -> Line {
        let mut l = self;
        if !l.in_number {
            l.count = l.count.wrapping_add(1);
            l.in_number = true;
        }
        let at = l.count as usize % NUMBERS;
        l.numbers[at] = l.numbers[at].wrapping_mul(10).wrapping_add(digit);
        l
    }

    fn with_mark(self, x: u8) -> Line {
        let mut l = self;
        l.in_number = false;
        if x == b':' {
            l.inputs = l.count;
            l.expects = true;
        }
        l.is_whole = x == b'\n';
        l
    }

    // The line with one byte more; after a whole line a new one begins.
    pub fn with_byte(self, x: u8) -> Line {
        let mut l = if self.is_whole { Line::empty() } else { self };
        if l.first == 0 {
            l.first = x;
        }
        if x.is_ascii_digit() {
            return l.with_digit(u32::from(x.wrapping_sub(b'0')));
        }
        l.with_mark(x)
    }

    // The call of a line: "mark 1 on 2 1" (a mark, a tail and a head), "group 1 on 2, set 10" (a mark, a tail and a set
    // of heads), "budget 16", "take-back".
    pub fn call_of(&self) -> Call {
        match self.first {
            b'm' => Call::new(kind_of_mark(self.number(1)), self.number(2), self.number(3)),
            b'g' => Call::new(
                kind_of_group(self.number(1)),
                self.number(2),
                self.number(3),
            ),
            b'b' => Call::budget(self.number(1)),
            _ => Call::take_back(),
        }
    }

    // How often it is made: "group 1 on 2, set 10, 3 times", "budget 16, 199 times", "take-back, 200 times".
    pub fn times_of(&self) -> u32 {
        match (self.first, self.inputs) {
            (b'g', 4) => self.number(4),
            (b'b', 2) => self.number(2),
            (b't', 1) => self.number(1),
            _ => 1,
        }
    }

    // Whether the bytes of a slice begin with those that the line expects.
    pub fn expects_bytes(&self, s: &[u8]) -> bool {
        (self.inputs..self.count)
            .zip(0u32..)
            .all(|(k, at)| byte(s, at) == self.number(k.wrapping_add(1)))
    }
}

// The kind of the call that sets a mark.
fn kind_of_mark(mark: u32) -> Kind {
    match mark {
        1 => Kind::Pin,
        2 => Kind::Ban,
        _ => Kind::Clear,
    }
}

// The kind of the call that sets it on a group.
fn kind_of_group(mark: u32) -> Kind {
    match mark {
        1 => Kind::PinGroup,
        2 => Kind::BanGroup,
        _ => Kind::ClearGroup,
    }
}

// What every script counts beside the faults.
const LINES: u32 = 3;

const CHECKED: u32 = 4;

// A line held to what it expects, and then with each expected number changed in turn: that has to be reported, or the
// test could not fail.
pub fn judged<R: Fn(Line) -> bool>(tally: Tally, line: Line, is_right: R) -> Tally
    requires { R.IsAlwaysCallable is_right }
{
    let t = tally.with(LINES, 1);
    let right = is_right(line);
    if !right {
        tally::print_wrong(t.count(LINES));
    }
    if !line.expects {
        return t;
    }
    let mut u = t.checked(CHECKED, right);
    for k in line.inputs..line.count {
        u = u.planted(!is_right(line.with_fault(k.wrapping_add(1))));
    }
    u
}

// Each line of a script in turn, with what the lines before it came to: what the last one comes to.
pub fn fold_lines<S: Copy, F: Fn(S, Line) -> S>(text: &[u8], start: S, after: F) -> S
    requires { F.IsAlwaysCallable after }
{
    let mut state = start;
    let mut line = Line::empty();
    for &x in text {
        line = line.with_byte(x);
        if line.is_whole {
            state = after(state, line);
        }
    }
    state
}
