// Price lists as text: read, written, merged, made into cards and made of cards. The word `line` is set by every call
// that has it, since it tells which line a refused list is refused by; 0 where none is.
ghost use Rattle.std.specs.Prelude.{◌≡◌, unwrap_or};
ghost use Rattle.instance.specs.RefusalNumbers.{refusal_number};
ghost use Rattle.price_list.specs.Reads.{Reads};
ghost use Rattle.feed_planner.specs.Prices.{StoresList, StoresPrices, StoresMade, StoresMerged};

use crate::words::keep_length;
use instance::Vertex;
use planner::{Refused, read_prices, write_prices};
use price_card::{card_from_prices, prices_from_card};
use price_merge::{MergeRefused, merge_lists};

// The number of a refusal; and the line that it is about, 0 where it is about none.
fn tell_refused(refused: Refused, line: &mut usize) -> u32
    ensures { (result ≡ refusal_number refused.refusal) × (line.new ≡ unwrap_or refused.line 0) }
{
    *line = refused.line.unwrap_or(0);
    u32::from(refused.refusal)
}

pub fn feed_read_prices(text: &[u8], n: u32, root: u32, prices: &mut [u32], line: &mut usize) -> u32
    ensures { Reads text.now n root prices.old prices.new (record { answer = result; line = line.new }) }
{
    match read_prices(text, n, Vertex(root), prices) {
        Ok(()) => {
            *line = 0;
            0
        }
        Err(refused) => tell_refused(refused, line),
    }
}

pub fn feed_write_prices(
    prices: &[u32],
    n: u32,
    root: u32,
    out: &mut [u8],
    length: &mut usize,
) -> u32
    ensures { StoresList prices.now n root out.old out.new length.old length.new result }
{
    match write_prices(prices, n, Vertex(root), out) {
        Ok(written) => {
            *length = written;
            0
        }
        Err(refusal) => u32::from(refusal),
    }
}

pub fn feed_card_from_prices(
    text: &[u8],
    n: u32,
    root: u32,
    budget: u32,
    out: &mut [u8],
    length: &mut usize,
    line: &mut usize,
) -> u32
    ensures { StoresMade text.now n root budget out.old out.new length.old length.new line.new result }
{
    match card_from_prices(text, n, Vertex(root), budget, out) {
        Ok(made) => {
            *length = made;
            *line = 0;
            0
        }
        Err(refused) => tell_refused(refused, line),
    }
}

pub fn feed_prices_from_card(card: &[u8], out: &mut [u8], length: &mut usize) -> u32
    ensures { StoresPrices card.now out.old out.new length.old length.new result }
{
    let listed = prices_from_card(card, out);
    keep_length(listed.answer, listed.length, length)
}

pub fn feed_merge_lists(
    school: &[u8],
    shipped: &[u8],
    n: u32,
    root: u32,
    out: &mut [u8],
    length: &mut usize,
    list: &mut u32,
    line: &mut usize,
) -> u32
    ensures { StoresMerged school.now shipped.now n root out.old out.new length.old length.new list.new line.new result }
{
    *list = 0;
    *line = 0;
    match merge_lists(school, shipped, n, Vertex(root), out) {
        Ok(merged) => {
            *length = merged;
            0
        }
        Err(MergeRefused::School(refused)) => {
            *list = 1;
            tell_refused(refused, line)
        }
        Err(MergeRefused::Shipped(refused)) => {
            *list = 2;
            tell_refused(refused, line)
        }
        Err(MergeRefused::Merged(refusal)) => u32::from(refusal),
    }
}
