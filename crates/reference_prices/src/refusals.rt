// The answers of document 02, A3, and its limits. They stay numbers, no enum: the document gives numbers, and these are
// what is counted and what the product's answers are held to. 0 is accepted.
pub const BAD_COUNT: u32 = 2; // "2 and 4 for a bad count or root"

pub const BAD_ROOT: u32 = 4;

pub const BUFFER_SHORT: u32 = 14; // a lent buffer too short, of words or of bytes

pub const BAD_SHAPE: u32 = 16; // "16 its shape"

pub const NO_VERTEX: u32 = 17; // "17 a position not below the count"

pub const NO_ARC_THERE: u32 = 18; // "18 feeder = fed or fed = root"

pub const BAD_WEIGHT: u32 = 19; // "19 a price above the limit"

pub const NAMED_BEFORE: u32 = 20; // "20 a link named before"

// A count of positions is at most this.
pub const MAX_VERTICES: u32 = 32;

// "Prices go up to 1,048,574 pence" (A9); the number after that says that there is no link.
pub const NO_ARC: u32 = 1048575;

// The answers that come before a text or the prices are looked at.
pub fn check_count(n: u32, root: u32) -> Result<(), u32> {
    if n == 0 || MAX_VERTICES < n {
        return Err(BAD_COUNT);
    }
    if n <= root {
        return Err(BAD_ROOT);
    }
    Ok(())
}
