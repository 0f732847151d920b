// Numbers that look random, the same in every run: Marsaglia's xorshift on 64 bits, by value.
#[derive(Clone, Copy)]
pub struct Random {
    pub state: u64,
}

impl Random {
    // The generator of a test, started by its number.
    pub fn seeded(seed: u32) -> Random {
        let start = Random {
            state: u64::from(seed) * 2862933555 + 88172645463325252,
        };
        start.next().next()
    }

    pub fn next(self) -> Random {
        let x = self.state;
        let y = x ^ (x << 13);
        let z = y ^ (y >> 7);
        Random {
            state: z ^ (z << 17),
        }
    }

    // Any 32 bits. The upper half of the state is the better one.
    pub fn word(self) -> u32 {
        (self.state / 4294967296) as u32
    }

    // A number below k that the present state gives, 0 where k is 0.
    pub fn below(self, k: u32) -> u32 {
        self.word().checked_rem(k).unwrap_or(0)
    }
}
