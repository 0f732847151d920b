// Small steps that ask nothing of their caller: reads that answer past the end too, parts that are no longer than what
// is there.
pub fn narrow(x: u32) -> u8 {
    (x % 256) as u8
}

// 256, which is no byte, past the end.
pub fn byte(s: &[u8], k: u32) -> u32 {
    s.get(k as usize).map_or(256, |&b| u32::from(b))
}

// 0 past the end.
pub fn word(s: &[u32], k: u32) -> u32 {
    s.get(k as usize).copied().unwrap_or(0)
}

// Whether the places from one up to another are all there and hold that value.
pub fn all_are<T: PartialEq + Copy>(s: &[T], from: u32, to: u32, value: T) -> bool {
    (from..to).all(|k| s.get(k as usize).is_some_and(|x| *x == value))
}

// The first so many places, or all.
pub fn front<T>(s: &[T], length: usize) -> &[T] {
    s.get(..length).unwrap_or(s)
}

// The same of a buffer that is lent to be written.
pub fn front_mut<T>(s: &mut [T], length: usize) -> &mut [T] {
    let room = s.len().min(length);
    &mut s[..room]
}

// Whether the first places of two slices are equal.
pub fn equal_fronts<T: PartialEq>(a: &[T], b: &[T], length: u32) -> bool {
    front(a, length as usize) == front(b, length as usize)
}

// A slice put into a buffer from a place on, as far as there is room.
pub fn put<T: Copy>(out: &mut [T], from: usize, s: &[T]) {
    let rest = out.get_mut(from..).unwrap_or_default();
    for (place, x) in rest.iter_mut().zip(s) {
        *place = *x;
    }
}
