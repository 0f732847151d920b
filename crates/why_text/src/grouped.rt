// Numbers with a comma between thousands, and a label in front of one.
ghost use Rattle.std.specs.Prelude.{◌∷◌, ◌<◌};
ghost use Rattle.text.specs.Buffer.{Room, Puts};
ghost use Rattle.why_text.specs.Grouped.{comma, three_digits, grouped, amount, amount_line};

use text::buffer::put_bytes;
use text::decimal::put_decimal;

// A comma and three digits.
fn put_thousands(v: u32, out: &mut [u8], at: usize) -> usize
    requires v_bound { v < 1000 }
    requires room { Room (comma ∷ three_digits v) out.old at }
    ensures { Puts (comma ∷ three_digits v) out.old out.new at result }
{
    let digits = [
        b',',
        b'0' + (v / 100) as u8,
        b'0' + (v / 10 % 10) as u8,
        b'0' + (v % 10) as u8,
    ];
    put_bytes(&digits, out, at)
}

// The thousands come first, if there are any.
pub fn put_grouped(v: u32, out: &mut [u8], at: usize) -> usize
    requires { Room (grouped v) out.old at }
    ensures { Puts (grouped v) out.old out.new at result }
{
    if v < 1000 {
        return put_decimal(v, out, at);
    }
    let next = put_grouped(v / 1000, out, at);
    put_thousands(v % 1000, out, next)
}

// A label and such a number.
pub fn put_amount(label: &[u8], v: u32, out: &mut [u8], at: usize) -> usize
    requires { Room (amount label.now v) out.old at }
    ensures { Puts (amount label.now v) out.old out.new at result }
{
    let next = put_bytes(label, out, at);
    put_grouped(v, out, next)
}

// The same at a line's end.
pub fn put_amount_line(label: &[u8], v: u32, out: &mut [u8], at: usize) -> usize
    requires { Room (amount_line label.now v) out.old at }
    ensures { Puts (amount_line label.now v) out.old out.new at result }
{
    let next = put_amount(label, v, out, at);
    out[next] = b'\n';
    next + 1
}
