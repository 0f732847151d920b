// The row of prices that is used for a feeder, from document 02, A12, alone: every place of a list is asked whose row
// it is in. The refusals stay numbers, no enum: the document gives numbers, and these are what is counted and what the
// product's answers are held to.
#![tactic(auto)]

pub const BAD_COUNT: u32 = 29; // "in order 29"

pub const NO_VERTEX: u32 = 9; // "9 for the feeder"

pub const TOO_SHORT: u32 = 14; // "14": of either list, needed or not

pub const BAD_NUMBER: u32 = 30; // "30 if the chosen row has a number that is neither a price nor no link"

// Every price is below it (A9), and what is above it is neither.
pub const NO_LINK: u32 = 1048575;

// The part that is handed back: of which list, from which place on, and how many numbers.
#[derive(Clone, Copy)]
pub struct RowPart {
    pub is_school: bool,
    pub from: u32,
    pub length: u32,
}

// "a refusal hands back the empty part at the start of the shipped list"
pub const EMPTY: RowPart = RowPart {
    is_school: false,
    from: 0,
    length: 0,
};

// Whether a feeder's row has a number of some kind: every place of the list is asked whose row it is in.
fn any_in_row<W: Fn(u32) -> bool>(prices: &[u32], n: u32, tail: u32, is_wanted: W) -> bool
    requires { W.IsAlwaysCallable is_wanted }
{
    (0..n.wrapping_mul(n)).zip(prices).any(|(place, &x)| place.checked_div(n) == Some(tail)
        && is_wanted(x))
}

// The part, or the number of the refusal.
pub fn used(school: &[u32], shipped: &[u32], n: u32, tail: u32) -> Result<RowPart, u32> {
    if n < 1 || 32 < n {
        return Err(BAD_COUNT);
    }
    if n <= tail {
        return Err(NO_VERTEX);
    }
    let all = n.wrapping_mul(n) as usize;
    if school.len() < all || shipped.len() < all {
        return Err(TOO_SHORT);
    }
    let is_school = any_in_row(school, n, tail, |x| x != NO_LINK);
    let chosen = if is_school { school } else { shipped };
    if any_in_row(chosen, n, tail, |x| NO_LINK < x) {
        return Err(BAD_NUMBER);
    }
    Ok(RowPart {
        is_school,
        from: tail.wrapping_mul(n),
        length: n,
    })
}
