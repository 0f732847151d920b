// Cards moved from one kind to the other: read, and written as the other kind.
ghost use Rattle.card.specs.Write.{written_of};
ghost use Rattle.planner.specs.Moving.{MovesToHistory, MovesToPlain};

use crate::opening::open_plain;
use card::write::write_instance;
use history_card::open::open_history;
use history_card::write::write_history;
use instance::refusals::Refusal;

// A plain card as a history card with no record.
pub fn to_history_card(card: &[u8], out: &mut [u8]) -> Result<usize, Refusal>
    ensures { MovesToHistory card.now out.old out.new (written_of result) }
{
    let b = open_plain(card)?;
    write_history(b, out)
}

// A history card with no record as a plain card.
pub fn to_plain_card(card: &[u8], out: &mut [u8]) -> Result<usize, Refusal>
    ensures { MovesToPlain card.now out.old out.new (written_of result) }
{
    let b = open_history(card)?;
    if b.count != 0 {
        return Err(Refusal::HasRecords);
    }
    write_instance(&b.weights, &b.marks, b.n, b.root, b.budget, out)
}
