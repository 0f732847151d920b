// Bit fields in bytes, the most significant bit first: read at any place, and written one behind the other.
#![tactic(auto)]

ghost use Rattle.std.specs.Prelude.{◌≡◌, ◌+◌, ◌*◌, ◌≤◌, ◌<◌, length, replicate};
ghost use Rattle.bits.specs.Bits.{bits_of, bits_in, field};
ghost use Rattle.bits.specs.Writer.{new_writer, filling, Ready, Put};

// The field of `width` bits that begins at the bit `at`. Only the bytes that it lies in are read, at most five.
pub fn read_bits(bytes: &[u8], at: usize, width: usize) -> u32
    requires { (at + width ≤ 8 * length bytes.now) × (width ≤ 32) }
    ensures { result ≡ field at width (bits_in bytes.now) }
{
    let first = at / 8;
    let before = at % 8;
    let end = before + width;
    let count = (end + 7) / 8;
    let mut value: u64 = 0;
    for byte in &bytes[first..first + count] {
        value = value * 256 + u64::from(*byte);
    }
    let behind = 8 * count - end;
    ((value >> behind) % (1u64 << width)) as u32
}

// Where the next bit goes: `count` bits of the byte at `at` are not stored yet, and stand in `partial`. The buffer is
// lent to each call: kept in here it would be a reference in a value, of which contracts speak less plainly.
#[derive(Clone, Copy)]
pub struct BitWriter {
    pub at: usize,
    pub partial: u8,
    pub count: usize,
}

impl BitWriter {
    // At the beginning of a buffer.
    pub fn new() -> BitWriter
        ensures { result ≡ new_writer }
    {
        BitWriter {
            at: 0,
            partial: 0,
            count: 0,
        }
    }

    // Puts the lowest `width` bits of `value`. A byte is stored when it is full.
    pub fn put_bits(self, value: u32, width: usize, out: &mut [u8]) -> BitWriter
        requires { Ready width self out.old × (width ≤ 32) }
        ensures { Put (bits_of width value) self out.old out.new result }
    {
        let power = 1u64 << width;
        let bits = u64::from(self.partial) * power + u64::from(value) % power;
        let mut at = self.at;
        let mut left = self.count + width;
        // counts bits down and bytes up, whole bytes only: a range of either leaves the other to be worked out
        while 8 <= left {
            left -= 8;
            out[at] = ((bits >> left) % 256) as u8;
            at += 1;
        }
        BitWriter {
            at,
            partial: (bits % 256) as u8,
            count: left,
        }
    }

    // Fills the byte that is not full with zero bits.
    pub fn fill_byte(self, out: &mut [u8]) -> BitWriter
        requires { Ready (filling self.count) self out.old }
        ensures { Put (replicate (filling self.count) 0) self out.old out.new result }
    {
        let width = (8 - self.count) % 8;
        self.put_bits(0, width, out)
    }
}
