// Numbers in decimal.
ghost use Rattle.std.specs.Prelude.{◌≡◌, length};
ghost use Rattle.text.specs.Buffer.{Room, Puts};
ghost use Rattle.text.specs.Decimal.{decimal};

// The digits of v / 10 come first, unless that is 0.
pub fn put_decimal(v: u32, out: &mut [u8], at: usize) -> usize
    requires { Room (decimal v) out.old at }
    ensures { Puts (decimal v) out.old out.new at result }
{
    if v < 10 {
        out[at] = b'0' + v as u8;
        return at + 1;
    }
    let last = put_decimal(v / 10, out, at);
    out[last] = b'0' + (v % 10) as u8;
    last + 1
}

// How many digits a number has, for a caller that measures before it writes.
pub fn decimal_length(v: u32) -> usize
    ensures { result ≡ length (decimal v) }
{
    let mut digits = 1;
    let mut rest = v;
    while 10 <= rest {
        rest /= 10;
        digits += 1;
    }
    digits
}
