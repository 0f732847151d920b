// Small steps that ask nothing of their caller: reads that answer past the end, stores that are left out there.
pub fn next(at: usize) -> usize {
    at.wrapping_add(1)
}

// 0 past the end, which no list has.
pub fn entry<T: Copy + Default>(list: &[T], at: usize) -> T {
    list.get(at).copied().unwrap_or_default()
}

pub fn put<T: Copy>(out: &mut [T], at: usize, value: T) {
    if let Some(place) = out.get_mut(at) {
        *place = value;
    }
}

// The first place of a byte, or the end of the search where it does not occur.
pub fn find(text: &[u8], from: usize, to: usize, value: u8) -> usize {
    (from..to)
        .find(|&at| entry(text, at) == value)
        .unwrap_or(to)
}

// Whether so many bytes of a text, from one place and from another, are the same.
pub fn is_same(text: &[u8], a: usize, b: usize, count: usize) -> bool {
    (0..count).all(|k| entry(text, a.wrapping_add(k)) == entry(text, b.wrapping_add(k)))
}

// Where the word of a tail and a head stands, "feeder by feeder": after n words for each tail before it.
pub fn cell(n: u32, tail: u32, head: u32) -> usize {
    (tail as usize)
        .wrapping_mul(n as usize)
        .wrapping_add(head as usize)
}

// How many words the prices have.
pub fn cells(n: u32) -> usize {
    cell(n, n, 0)
}
