// Numbers in a text, of any length: the digits at a place, what they show, and whether they are a number with its
// separator behind it.
ghost use Rattle.std.specs.Prelude.{◌≡◌, true, ◌+◌, ◌*◌, ◌-◌, ◌≤◌, length, drop};
ghost use Rattle.price_format.specs.Numbers.{is_digit, digits_in, is_number};
ghost use Rattle.price_list.specs.Numbers.{cap, capped, Scans, ReadsNumber};

// Numbers are read up to this one, which stands for all larger ones: it is out of every range.
pub const CAP: u32 = 100_000_000;

// What the digits at a place show, at most CAP, and the place after them.
#[derive(Clone, Copy)]
pub struct Digits {
    pub value: u32,
    pub end: usize,
}

// A number, at most CAP, and the place after it and its separator.
#[derive(Clone, Copy)]
pub struct Number {
    pub value: u32,
    pub next: usize,
}

fn is_digit(b: u8) -> bool
    ensures { result ≡ is_digit b }
{
    if b < b'0' {
        return false;
    }
    b <= b'9'
}

// One digit more.
fn appended(value: u32, b: u8) -> u32
    requires { (value ≤ cap) × (is_digit b ≡ true) }
    ensures { result ≡ capped (10 * value + (b - 48)) }
{
    let longer = 10 * value + (b - b'0') as u32;
    if longer <= CAP {
        return longer;
    }
    CAP
}

pub fn scan_digits(text: &[u8], at: usize) -> Digits
    requires { at ≤ length text.now }
    ensures { Scans text.now at result }
{
    let mut value = 0;
    let mut end = at;
    while end < text.len() {
        let b = text[end];
        if !is_digit(b) {
            break;
        }
        value = appended(value, b);
        end += 1;
    }
    Digits { value, end }
}

// Whether the digits from `at` to `end` are a number: some, and no needless 0 in front.
fn is_number(text: &[u8], at: usize, end: usize) -> bool
    requires { (end ≤ length text.now) × (end ≡ at + length (digits_in (drop at text.now))) }
    ensures { result ≡ is_number (digits_in (drop at text.now)) }
{
    if end == at {
        return false;
    }
    if end == at + 1 {
        return true;
    }
    text[at] != b'0'
}

// The number at a place, if one stands there with its separator behind it.
pub fn read_number(text: &[u8], at: usize, separator: u8) -> Option<Number>
    requires { (at ≤ length text.now) × (1 ≤ separator) }
    ensures { ReadsNumber text.now at separator result }
{
    let digits = scan_digits(text, at);
    let end = digits.end;
    if !is_number(text, at, end) {
        return None;
    }
    if end == text.len() {
        return None;
    }
    if text[end] != separator {
        return None;
    }
    Some(Number {
        value: digits.value,
        next: end + 1,
    })
}
