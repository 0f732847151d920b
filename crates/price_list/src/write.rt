// A list written: every place is judged and measured before the first byte is put, so that a refusal touches none.
ghost use Rattle.std.specs.Prelude.{◌≡◌, ◌*◌, ◌≤◌, ◌<◌, length};
ghost use Rattle.base.specs.Bounded.{all_below};
ghost use Rattle.instance.specs.Limits.{max_vertices};
ghost use Rattle.instance.specs.RefusalNumbers.{answer_of};
ghost use Rattle.text.specs.Buffer.{Room, Puts};
ghost use Rattle.price_format.specs.Writing.{price_at, is_written, place_text, list_text, place_ok, prices_refusal};
ghost use Rattle.price_list.specs.Writes.{writing_told, Writes};

use crate::room::check_room;
use checks::arc::can_be_arc;
use instance::Vertex;
use instance::limits::{MAX_WEIGHT, NO_ARC};
use instance::refusals::Refusal;
use text::decimal::decimal_length;
use text::lines::put_three;

// Whether a place has a line.
fn is_written(n: u32, root: u32, k: u32, price: u32) -> bool
    requires { 1 ≤ n }
    ensures { result ≡ is_written n root k price }
{
    if can_be_arc(n, root, k / n, k % n) {
        return price != NO_ARC;
    }
    false
}

fn place_ok(n: u32, root: u32, k: u32, price: u32) -> bool
    requires { 1 ≤ n }
    ensures { result ≡ place_ok n root k price }
{
    if is_written(n, root, k, price) {
        return price <= MAX_WEIGHT;
    }
    true
}

fn places_ok(prices: &[u32], n: u32, root: u32) -> bool
    requires { (1 ≤ n) × (n ≤ max_vertices) × (n * n ≤ length prices.now) }
    ensures { result ≡ all_below (n * n) (λ i. place_ok n root i (price_at prices.now i)) }
{
    for k in (0..n * n).rev() {
        if !place_ok(n, root, k, prices[k as usize]) {
            return false;
        }
    }
    true
}

fn check_prices(prices: &[u32], n: u32, root: u32) -> Result<(), Refusal>
    ensures { answer_of result ≡ prices_refusal n root prices.now }
{
    check_room(n, root, prices.len())?;
    if places_ok(prices, n, root) {
        return Ok(());
    }
    Err(Refusal::WeightTooHigh)
}

// How long the line of a place is; 0 if it has none.
fn place_length(n: u32, root: u32, k: u32, price: u32) -> usize
    requires { 1 ≤ n }
    ensures { result ≡ length (place_text n root k price) }
{
    if is_written(n, root, k, price) {
        return decimal_length(k / n) + decimal_length(k % n) + decimal_length(price) + 3;
    }
    0
}

fn list_length(prices: &[u32], n: u32, root: u32) -> usize
    requires { (1 ≤ n) × (n ≤ max_vertices) × (n * n ≤ length prices.now) }
    ensures { result ≡ length (list_text n root prices.now) }
{
    let total = n * n;
    let mut sum = 0;
    for k in 0..total {
        sum += place_length(n, root, k, prices[k as usize]);
    }
    sum
}

fn put_place(n: u32, root: u32, k: u32, price: u32, out: &mut [u8], at: usize) -> usize
    requires { (1 ≤ n) × Room (place_text n root k price) out.old at }
    ensures { Puts (place_text n root k price) out.old out.new at result }
{
    if is_written(n, root, k, price) {
        return put_three(b"", k / n, b" ", k % n, b" ", price, out, at);
    }
    at
}

fn put_list(prices: &[u32], n: u32, root: u32, out: &mut [u8]) -> usize
    requires { (1 ≤ n) × (n ≤ max_vertices) × (n * n ≤ length prices.now) × Room (list_text n root prices.now) out.old 0 }
    ensures { Puts (list_text n root prices.now) out.old out.new 0 result }
{
    let total = n * n;
    let mut at = 0;
    for k in 0..total {
        at = put_place(n, root, k, prices[k as usize], out, at);
    }
    at
}

// Writes the prices as a list and gives its length; bytes behind it stay.
pub fn write_prices(prices: &[u32], n: u32, root: Vertex, out: &mut [u8]) -> Result<usize, Refusal>
    ensures { Writes prices.now n root.0 out.old out.new (writing_told result) }
{
    check_prices(prices, n, root.0)?;
    let length = list_length(prices, n, root.0);
    if out.len() < length {
        return Err(Refusal::BufferShort);
    }
    put_list(prices, n, root.0, out);
    Ok(length)
}
