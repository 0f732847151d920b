// Small steps that ask nothing of their caller: reads that answer past the end; and where a cell stands in a list of n
// times n places, "feeder by feeder".

// 0 past the end.
pub fn entry<T: Copy + Default>(list: &[T], k: u32) -> T {
    list.get(k as usize).copied().unwrap_or_default()
}

pub fn row(n: u32, cell: u32) -> u32 {
    cell.checked_div(n).unwrap_or(0)
}

pub fn column(n: u32, cell: u32) -> u32 {
    cell.checked_rem(n).unwrap_or(0)
}

// Whether a cell is the first of its pair: above the diagonal.
pub fn is_upper(n: u32, cell: u32) -> bool {
    row(n, cell) < column(n, cell)
}

// The cell of a row and a column: after n places for each row before it.
pub fn cell(n: u32, row: u32, column: u32) -> u32 {
    row.wrapping_mul(n).wrapping_add(column)
}

// The cell of the same pair the other way.
pub fn mirror(n: u32, at: u32) -> u32 {
    cell(n, column(n, at), row(n, at))
}

// How many cells there are.
pub fn cells(n: u32) -> u32 {
    cell(n, n, 0)
}
