// The room of the lists and the buffers that are handed over, more than any call needs.
pub const ROOM: usize = 1100;
