// The refusals of documents 01 and 02. A call that can be refused answers with a `Result`; what C and the printed text
// show is the refusal's number, and 0 where the call is accepted. specs/Refusals.antt has the numbers for contracts.
ghost use Rattle.std.specs.Prelude.{◌≡◌};
ghost use Rattle.instance.specs.RefusalNumbers.{refusal_number};

#[derive(Clone, Copy, Debug, PartialEq, Eq)]
pub enum Refusal {
    // Card under 5 bytes.
    CardShort = 1,
    // Positions field 0 or 33 to 63.
    BadCount = 2,
    // Card length not the needed one.
    BadLength = 3,
    // Root not below positions.
    BadRoot = 4,
    // Budget field above MAX_BUDGET.
    BadCardBudget = 5,
    // Price field above MAX_WEIGHT that is not NO_ARC. Retired: 20 bits hold none.
    BadWeight = 6,
    // Mark 3, or a mark other than 0 on no link.
    BadMark = 7,
    // A filling bit is 1.
    BadFilling = 8,
    // Press names a position not below n; of a group: a feeder or a set bit not below the count; of a row of prices:
    // its feeder.
    NoVertex = 9,
    // Press names no link; of a group: no member is a link.
    NoSuchArc = 10,
    // Budget press above MAX_BUDGET.
    BadBudget = 11,
    // Press with 200 recorded.
    HistoryFull = 12,
    // Take-back with none recorded.
    HistoryEmpty = 13,
    // A lent buffer or list too short.
    BufferShort = 14,
    // Board handed in has a field outside the ranges above, a mark other than 0 on no link, more than 200 recorded, or
    // a record naming no link or restoring a value out of range; a group record naming a non-link, or nothing.
    InvalidBoard = 15,
    // A line of a price list has not its shape.
    BadLine = 16,
    // A line names a position not below the count.
    LineNoVertex = 17,
    // A line's feeder is its fed position, or its fed position is the root.
    LineNoArc = 18,
    // A line's price is above MAX_WEIGHT; of prices to be written, one that is neither a price nor NO_ARC.
    WeightTooHigh = 19,
    // A line names a link that an earlier line named.
    NamedBefore = 20,
    // A plan made elsewhere is not a feed tree.
    NotArborescence = 21,
    // Its total is wrong.
    WrongTotal = 22,
    // A bad cut, or more than MAX_CUTS.
    BadCut = 23,
    // A link is overcharged.
    Overcharged = 24,
    // The amounts do not add up.
    WrongValues = 25,
    // A try limit of 0 or above MAX_TRIES.
    BadTryLimit = 26,
    // On a history card, a count above 200, kind 3, or a record naming a non-link, an empty group or a value out of
    // range.
    BadRecord = 27,
    // A move to a plain card, of a history card with records.
    HasRecords = 28,
    // For passive runs and for a row of prices, a count outside 1 to 32.
    CountOutOfRange = 29,
    // A price or mark out of range, or a marked run that has no price; of a row of prices: a number that is neither a
    // price nor NO_ARC.
    OutOfRange = 30,
    // A price or mark that is not equal both ways.
    UnequalPair = 31,
}

impl From<Refusal> for u32 {
    ghost from_gives = { λ r k. k ≡ refusal_number r };

    fn from(refusal: Refusal) -> u32 {
        refusal as u32
    }
}

// The numbers of those that some calls still answer with as numbers.
pub const NO_VERTEX: u32 = 9;

pub const BUFFER_SHORT: u32 = 14;

pub const INVALID_BOARD: u32 = 15;

pub const COUNT_OUT_OF_RANGE: u32 = 29;

pub const OUT_OF_RANGE: u32 = 30;
