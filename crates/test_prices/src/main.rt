// Price lists as text (document 02, A3), read and written by the product, beside the reference's reader and writer:
// answers, lines, lengths and whole buffers, and what the comparison says of results with a fault planted.
#![tactic(auto)]

mod buffers; // buffers.rt: the buffers that are lent
mod cases; // cases.rt: the documents' own cases, and texts that are easily read wrong
mod counts; // counts.rt: what is counted
mod damage; // damage.rt: texts with one thing changed
mod lists; // lists.rt: random lists, as they are and damaged
mod long; // long.rt: long texts
mod making; // making.rt: random prices and the lists of them
mod prices; // prices.rt: random prices written, and round trips
mod readings; // readings.rt: what a reading gave
mod writings; // writings.rt: what a writing gave

use reference::tally::Tally;

fn report(tally: Tally) {
    tally.report(
        b"held to the documents\nheld to the prices of a list\nlists damaged\nread, answer 0:\nread, answer 2:\nread, answer 4:\nread, answer 14:\nread, answer 16:\nread, answer 17:\nread, answer 18:\nread, answer 19:\nread, answer 20:\nwritten, answer 0:\nwritten, answer 2:\nwritten, answer 4:\nwritten, answer 14:\nwritten, answer 19:\nwritten and read again\nread and written again\nanother answer of a reading\nanother line\nthe first price\nthe last price\nthe word after the prices\nthe last word\na refusal's first word\nanother answer of a writing\nanother length\nthe first byte of a text\nits last byte\nthe byte after it\nthe last byte of the buffer\n",
    );
}

fn main() {
    let t = cases::all(Tally::zero());
    let t = lists::small(t, 320);
    report(prices::small(t, 320));
    let t = long::all(Tally::zero());
    let t = lists::large(t, 12);
    report(prices::large(t, 16));
}
