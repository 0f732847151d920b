// The documents' refusals, as the reference reads them. They stay numbers, no enum: the documents give numbers, and
// these are what the scripts expect, what is counted, and what the planner's answers are held to. 0 is accepted. "6 is
// retired; 5, 11, 15, 19 and 27 use the new limits." (02, A9)
pub const CARD_SHORT: u32 = 1; // card under 5 bytes

pub const BAD_COUNT: u32 = 2; // positions field 0 or 33 to 63

pub const BAD_LENGTH: u32 = 3; // card length not the needed one; on a history card, something runs past the end

pub const BAD_ROOT: u32 = 4; // root not below positions

pub const BAD_CARD_BUDGET: u32 = 5; // budget field above the limit

pub const BAD_MARK: u32 = 7; // mark 3, or a mark other than 0 on no link

pub const BAD_FILLING: u32 = 8; // a filling bit is 1

pub const NO_VERTEX: u32 = 9; // press names a position not below n

pub const NO_SUCH_ARC: u32 = 10; // press names no link

pub const BAD_BUDGET: u32 = 11; // budget press above the limit

pub const HISTORY_FULL: u32 = 12; // press with 200 recorded

pub const HISTORY_EMPTY: u32 = 13; // take-back with none recorded

pub const BUFFER_SHORT: u32 = 14; // a lent buffer too short

pub const INVALID_BOARD: u32 = 15; // board handed in has a field outside the ranges

// Of a plan made elsewhere (02, A6).
pub const NOT_A_TREE: u32 = 21; // not a feed tree

pub const WRONG_TOTAL: u32 = 22; // wrong total

pub const BAD_CUT: u32 = 23; // a bad cut or more than 61

pub const OVERCHARGED: u32 = 24; // a link overcharged

pub const WRONG_AMOUNTS: u32 = 25; // amounts not adding up

// Of a listing of all plans (02, A7).
pub const BAD_TRY_LIMIT: u32 = 26; // a try limit of 0 or above 1,000,000

// Of a card with records (02, A8).
pub const BAD_RECORDS: u32 = 27; // a count above 200, kind 3, a record naming a non-link or a value out of range

pub const HAS_RECORDS: u32 = 28; // "a move to old with records"

// The documents' number of what a call gave: that of the refusal, or 0.
pub fn number_of<T: Drop>(given: Result<T, u32>) -> u32 {
    given.err().unwrap_or(0)
}
