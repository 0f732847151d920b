// A board written as a card: the present marks and budget, and not the history; or with it.
ghost use Rattle.card.specs.Write.{written_of};
ghost use Rattle.planner.specs.Writing.{Writes, WritesHistory};

use board::Board;
use board::valid::is_valid;
use card::write::write_instance;
use history_card::write::write_history;
use instance::refusals::Refusal;

pub fn write_card(b: Board, out: &mut [u8]) -> Result<usize, Refusal>
    ensures { Writes b out.old out.new (written_of result) }
{
    if !is_valid(&b) {
        return Err(Refusal::InvalidBoard);
    }
    write_instance(&b.weights, &b.marks, b.n, b.root, b.budget, out)
}

// The history too: what is written opens as the same board, with the same take-backs.
pub fn write_history_card(b: Board, out: &mut [u8]) -> Result<usize, Refusal>
    ensures { WritesHistory b out.old out.new (written_of result) }
{
    if !is_valid(&b) {
        return Err(Refusal::InvalidBoard);
    }
    write_history(b, out)
}
