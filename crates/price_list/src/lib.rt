// Price lists as text (02, A3): reading them into a caller's words, and writing them into a caller's bytes. What a list
// says is defined in `price_format`.
#![tactic(auto)]

pub mod numbers; // numbers.rt: numbers in a text
pub mod lines; // lines.rt: a line of a text, read and judged
pub mod list_refusal; // list_refusal.rt: why a list is refused, and by which line
pub mod read; // read.rt: a whole list read
pub mod write; // write.rt: a list written
pub mod room; // room.rt: the count, the root, and whether there are enough words for the prices

pub use list_refusal::Refused;
pub use read::read_prices;
pub use write::write_prices;

// A price list has at most 961 lines, of at most 14 bytes: two positions of two digits, a price of seven, two spaces
// and a line feed.
pub const MAX_LIST: usize = 13_454;
