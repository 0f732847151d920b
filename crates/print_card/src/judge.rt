// A price list of which only the beginning was read. No accepted list has more than MAX_LIST bytes, so of a longer
// input the whole lines at its beginning are judged: what refuses them refuses all of it (part_decides in
// proofs/PartLaws.antt). If they are accepted, the line behind them is longer than any line of a list.
ghost use Rattle.std.specs.Prelude.{◌≡◌, cond, ◌+◌, ◌≤◌, eqb, length};
ghost use Rattle.text.specs.Lines.{line_feed};
ghost use Rattle.print_card.specs.Judge.{max_read, line_end, line_feeds, judging_told, Judges};

use instance::Vertex;
use price_card::card_from_prices;
use price_list::Refused;

// So many bytes are judged.
pub const MAX_READ: usize = 16_384;

// Why an input has no card: as for a list; or its first whole lines are a list, and the line of this number, which
// follows them, is too long for a line.
#[derive(Clone, Copy, Debug, PartialEq, Eq)]
pub enum InputRefused {
    List(Refused),
    LongLine(usize),
}

// The place after the last line feed; 0 if there is none.
fn line_end(text: &[u8]) -> usize
    ensures { result ≡ line_end (length text.now) text.now }
{
    let mut k = text.len();
    while 0 < k {
        if text[k - 1] == b'\n' {
            return k;
        }
        k -= 1;
    }
    0
}

// 1 for a line feed, 0 for any other byte.
fn feed_count(b: u8) -> usize
    ensures { result ≡ cond (eqb b line_feed) 1 0 }
{
    if b == b'\n' {
        return 1;
    }
    0
}

fn line_feeds(text: &[u8]) -> usize
    ensures { result ≡ line_feeds (length text.now) text.now }
{
    let mut count = 0;
    for k in 0..text.len() {
        count += feed_count(text[k]);
    }
    count
}

// The card of the list that an input is, or why there is none.
pub fn judge_input(
    text: &[u8],
    n: u32,
    root: u32,
    budget: u32,
    out: &mut [u8],
) -> Result<usize, InputRefused>
    requires { length text.now ≤ max_read + 1 }
    ensures { Judges text.now n root budget out.old out.new (judging_told result) }
{
    if text.len() <= MAX_READ {
        return card_from_prices(text, n, Vertex(root), budget, out).map_err(InputRefused::List);
    }
    let end = line_end(text);
    card_from_prices(&text[..end], n, Vertex(root), budget, out).map_err(InputRefused::List)?;
    Err(InputRefused::LongLine(line_feeds(text) + 1))
}
