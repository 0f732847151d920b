// The price list of a card of either kind: the card is opened, its weights are put one behind the other, and the list
// is written of them.
ghost use Rattle.std.specs.Prelude.{◌≡◌, true, length};
ghost use Rattle.instance.specs.Limits.{cells};
ghost use Rattle.commands.specs.Valid.{valid};
ghost use Rattle.board.specs.ModelOf.{model_of};
ghost use Rattle.price_card.specs.FromCard.{refused, marked_by, WeightsTaken, WeightsOn, ListsWeights, ListsCard};

use board::Board;
use instance::Vertex;
use instance::limits::{CELLS, FREE, NO_ARC};
use planner::open_card;
use price_list::read::copy_prices;
use price_list::write::write_prices;

// 0 with the numbers that go with the list, whether the card has something that no list says, a mark or a record, and
// the length of the list; or the refusal, and 0 for all of them.
#[derive(Clone, Copy)]
pub struct CardPrices {
    pub answer: u32,
    pub n: u32,
    pub root: u32,
    pub budget: u32,
    pub marked: bool,
    pub length: usize,
}

// 0 and what a list is written of: the prices stand tail by tail, n times n of them; or the refusal, and nothing that
// counts.
#[derive(Clone, Copy)]
pub struct CardWeights {
    pub answer: u32,
    pub n: u32,
    pub root: u32,
    pub budget: u32,
    pub marked: bool,
    pub prices: [u32; CELLS],
}

fn not_listed(answer: u32) -> CardPrices
    ensures { result ≡ refused answer }
{
    CardPrices {
        answer,
        n: 0,
        root: 0,
        budget: 0,
        marked: false,
        length: 0,
    }
}

// Whether a mark is other than free, or there is a record.
fn is_marked(marks: &[u8; CELLS], records: usize) -> bool
    requires { length marks.now ≡ cells }
    ensures { result ≡ marked_by marks.now records }
{
    records != 0 || marks.iter().any(|m| *m != FREE)
}

// The weights of a valid board.
fn take_weights(b: Board) -> CardWeights
    requires { valid (model_of b) ≡ true }
    ensures { WeightsTaken (model_of b) result }
{
    let n = b.n;
    let marked = is_marked(&b.marks, b.count);
    let mut prices = [NO_ARC; CELLS];
    copy_prices(&b.weights, n, &mut prices);
    CardWeights {
        answer: 0,
        n,
        root: b.root,
        budget: b.budget,
        marked,
        prices,
    }
}

// Opens a card and takes its weights. Apart from the writing, so that a program can let the card and its board go
// before a list takes their place on the stack.
pub fn weights_on_card(card: &[u8]) -> CardWeights
    ensures { WeightsOn card.now result }
{
    match open_card(card) {
        Ok(board) => take_weights(board),
        Err(refusal) => {
            let prices = [NO_ARC; CELLS];
            CardWeights {
                answer: u32::from(refusal),
                n: 0,
                root: 0,
                budget: 0,
                marked: false,
                prices,
            }
        }
    }
}

// The list of weights that were taken of a card; bytes behind it stay.
pub fn list_weights(taken: CardWeights, out: &mut [u8]) -> CardPrices
    ensures { ListsWeights taken out.old out.new result }
{
    let answer = taken.answer;
    if answer != 0 {
        return not_listed(answer);
    }
    match write_prices(&taken.prices, taken.n, Vertex(taken.root), out) {
        Ok(length) => CardPrices {
            answer: 0,
            n: taken.n,
            root: taken.root,
            budget: taken.budget,
            marked: taken.marked,
            length,
        },
        Err(refusal) => not_listed(u32::from(refusal)),
    }
}

// The list of a card's prices; bytes behind it stay.
pub fn prices_from_card(card: &[u8], out: &mut [u8]) -> CardPrices
    ensures { ListsCard card.now out.old out.new result }
{
    let taken = weights_on_card(card);
    list_weights(taken, out)
}
