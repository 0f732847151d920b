// A list of presses (02, A1): each is made by the single command on the lent board; the first refused one stops the
// list.
#![tactic(auto)]

ghost use Rattle.command_list.specs.CommandList.{AnswersList, left_by};

use board::calls::execute;
use board::valid::is_valid;
use board::{Board, Command};
use instance::refusals::Refusal;

// One press of a list: any command, a take-back too.
#[derive(Clone, Copy)]
pub struct Press {
    pub command: Command,
}

// How many presses of a list were applied, and the refusal that stopped it, if one did.
#[derive(Clone, Copy)]
pub struct Applied {
    pub applied: usize,
    pub result: Result<(), Refusal>,
}

// Makes the presses of a list in order, up to the first refused one; what the earlier ones did stands. An invalid board
// is refused for an empty list too.
pub fn press_list(b: &mut Board, list: &[Press]) -> Applied
    ensures { AnswersList list.now list.now b.old (left_by result b.new) }
{
    if !is_valid(b) {
        return Applied {
            applied: 0,
            result: Err(Refusal::InvalidBoard),
        };
    }
    for (applied, press) in list.iter().enumerate() {
        let result = execute(b, press.command);
        if result.is_err() {
            return Applied { applied, result };
        }
    }
    Applied {
        applied: list.len(),
        result: Ok(()),
    }
}
