// What the program counts beside the faults that are found, in the order of the names in main.rt.

// Readings and writings that are held to what a document says, or to the prices that a list was made of.
pub const DOCUMENTS: u32 = 3;

pub const MADE: u32 = 4;

// Lists of which a thing was changed; then readings held to the reference, by their answers.
pub const DAMAGED: u32 = 5;

const READ: u32 = 6;

const WRITTEN: u32 = 15;

// Lists that were written and read again, and read and written again.
pub const WRITTEN_READ: u32 = 20;

pub const READ_WRITTEN: u32 = 21;

// A count for each kind of planted fault.
pub const PLANTED_READ: u32 = 22;

pub const PLANTED_WRITTEN: u32 = 29;

// Where a reading's answer is counted: 0, 2, 4, 14, and 16 to 20.
pub fn of_reading(answer: u32) -> u32 {
    match answer {
        0 => READ,
        2 => READ + 1,
        4 => READ + 2,
        14 => READ + 3,
        16 => READ + 4,
        17 => READ + 5,
        18 => READ + 6,
        19 => READ + 7,
        _ => READ + 8,
    }
}

// Where a writing's answer is counted: 0, 2, 4, 14 and 19.
pub fn of_writing(answer: u32) -> u32 {
    match answer {
        0 => WRITTEN,
        2 => WRITTEN + 1,
        4 => WRITTEN + 2,
        14 => WRITTEN + 3,
        _ => WRITTEN + 4,
    }
}
