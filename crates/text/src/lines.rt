// Labels with numbers, and lines of them.
ghost use Rattle.text.specs.Buffer.{Room, Puts};
ghost use Rattle.text.specs.Lines.{labelled, line, line_of_three};

use crate::buffer::put_bytes;
use crate::decimal::put_decimal;

// A label and a number.
pub fn put_labelled(label: &[u8], v: u32, out: &mut [u8], at: usize) -> usize
    requires { Room (labelled label.now v) out.old at }
    ensures { Puts (labelled label.now v) out.old out.new at result }
{
    let next = put_bytes(label, out, at);
    put_decimal(v, out, next)
}

// A line of one label and number.
pub fn put_line(label: &[u8], v: u32, out: &mut [u8], at: usize) -> usize
    requires { Room (line label.now v) out.old at }
    ensures { Puts (line label.now v) out.old out.new at result }
{
    let next = put_labelled(label, v, out, at);
    out[next] = b'\n';
    next + 1
}

// A line of three labels, each with its number: a and x, then b and y, then c and z; into `out` from the place `at` on.
pub fn put_three(
    a: &[u8],
    x: u32,
    b: &[u8],
    y: u32,
    c: &[u8],
    z: u32,
    out: &mut [u8],
    at: usize,
) -> usize
    requires { Room (line_of_three a.now x b.now y c.now z) out.old at }
    ensures { Puts (line_of_three a.now x b.now y c.now z) out.old out.new at result }
{
    let second = put_labelled(a, x, out, at);
    let third = put_labelled(b, y, out, second);
    put_line(c, z, out, third)
}
