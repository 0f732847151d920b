// What a test program counts, and how it prints that. Every program counts faults that it found, faults that it
// planted, and how many of these its comparison reported: "A comparison that can not fail is no test".

// More than any program counts.
pub const COUNTS: usize = 64;

// The first three counts; a program's own follow.
pub const FAULTS: u32 = 0;

pub const PLANTED: u32 = 1;

pub const REPORTED: u32 = 2;

pub const OWN: u32 = 3;

#[derive(Clone, Copy)]
pub struct Tally {
    pub counts: [u32; COUNTS],
}

impl Tally {
    pub fn zero() -> Tally {
        Tally {
            counts: [0; COUNTS],
        }
    }

    pub fn count(&self, which: u32) -> u32 {
        self.counts[which as usize % COUNTS]
    }

    pub fn with(self, which: u32, more: u32) -> Tally {
        let mut t = self;
        let at = which as usize % COUNTS;
        t.counts[at] = t.counts[at].wrapping_add(more);
        t
    }

    // One more of a kind, and one more fault where it is not right.
    pub fn checked(self, which: u32, right: bool) -> Tally {
        self.with(which, 1).with(FAULTS, u32::from(!right))
    }

    // One more planted fault, reported or not.
    pub fn planted(self, reported: bool) -> Tally {
        self.with(PLANTED, 1).with(REPORTED, u32::from(reported))
    }

    // Each kind of fault that applies, counted from one count on and planted: a comparison that still passes has not
    // reported it.
    pub fn with_faults<A: Fn(u32) -> bool, P: Fn(u32) -> bool>(
        self,
        first: u32,
        kinds: u32,
        applies: A,
        passes: P,
    ) -> Tally
        requires applies { A.IsAlwaysCallable applies }
        requires passes { P.IsAlwaysCallable passes }
    {
        let mut t = self;
        for kind in 0..kinds {
            if applies(kind) {
                t = t.with(first.wrapping_add(kind), 1).planted(!passes(kind));
            }
        }
        t
    }

    // A line for each name, which ends in a line feed, with the counts from one on.
    fn print_names(&self, names: &[u8], from: u32) {
        let mut which = from;
        for &x in names {
            if x == b'\n' {
                io::write_all(1, b" ");
                io::print_decimal(1, u64::from(self.count(which)));
                which = which.wrapping_add(1);
            }
            io::write_all(1, &[x]);
        }
    }

    // The program's counts by name, then the three that all have.
    pub fn report(&self, names: &[u8]) {
        self.print_names(names, OWN);
        self.print_names(b"faults\nfaults planted\nof these reported\n", FAULTS);
    }
}

// Names a line of a script that was found wrong.
pub fn print_wrong(line: u32) {
    io::write_all(1, b"wrong: line ");
    io::print_decimal(1, u64::from(line));
    io::write_all(1, b"\n");
}
