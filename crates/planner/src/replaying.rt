// A whole list of calls on a freshly opened card, and a look at the end: demand 3 of document 01 as one function.
ghost use Rattle.std.specs.Prelude.{◌≡◌, true};
ghost use Rattle.commands.specs.Valid.{valid};
ghost use Rattle.board.specs.ModelOf.{model_of};
ghost use Rattle.planner.specs.Looking.{buffers, answer_of};
ghost use Rattle.instance.specs.RefusalNumbers as refusals;
ghost use Rattle.planner.specs.Replaying.{call, call_of, Makes, lists_short, Replays};

use crate::View;
use crate::looking::{is_too_short, look_valid};
use crate::opening::open_card;
use board::calls::execute;
use board::{Board, Command};
use card::MAX_CARD;
use card::write::write_instance;
use instance::refusals::{BUFFER_SHORT, Refusal};
use instance::{Mark, Vertex};

// What a list may hold.
#[derive(Clone, Copy)]
pub enum Call {
    Command(Command),
    Look,
    Write,
}

// The call of a kind and two numbers, as they are handed in: 0 pins, 1 bans, 2 clears (tail and head), 3 sets the
// budget, 4 takes back, 5 looks, 7 pins, 8 bans, 9 clears several arcs (tail and set of heads), any other kind writes.
pub fn call_at(kind: u8, first: u32, second: u32) -> Call
    ensures { call_of result ≡ call kind first second }
{
    match kind {
        0 => Call::Command(Command::SetMark(Mark::Pinned, Vertex(first), Vertex(second))),
        1 => Call::Command(Command::SetMark(Mark::Banned, Vertex(first), Vertex(second))),
        2 => Call::Command(Command::SetMark(Mark::Free, Vertex(first), Vertex(second))),
        3 => Call::Command(Command::SetBudget(first)),
        4 => Call::Command(Command::TakeBack),
        5 => Call::Look,
        7 => Call::Command(Command::SetMarks(Mark::Pinned, Vertex(first), second)),
        8 => Call::Command(Command::SetMarks(Mark::Banned, Vertex(first), second)),
        9 => Call::Command(Command::SetMarks(Mark::Free, Vertex(first), second)),
        _ => Call::Write,
    }
}

fn view_answer(v: View) -> u32
    ensures { result ≡ answer_of v }
{
    match v {
        View::Shown(_, _) => 0,
        View::Refused(answer) => answer,
    }
}

// The number that a command answers with.
fn command_answer(made: Result<(), Refusal>) -> u32
    ensures { result ≡ refusals.answer_of made }
{
    match made {
        Ok(()) => 0,
        Err(refusal) => u32::from(refusal),
    }
}

// A write whose card is not wanted, of a valid board: what it answers.
fn write_away(b: &Board) -> u32
    requires { valid (model_of b.now) ≡ true }
    ensures { result ≡ 0 }
{
    let mut out = [0u8; MAX_CARD];
    match write_instance(&b.weights, &b.marks, b.n, b.root, b.budget, &mut out) {
        Ok(_) => 0,
        Err(refusal) => u32::from(refusal),
    }
}

// One call of the list on a valid board: what it answers.
fn make_call(
    b: &mut Board,
    call: Call,
    parents: &mut [u8], // these three are a look's buffers
    states: &mut [u8],
    cuts: &mut [u32],
) -> u32
    requires { valid (model_of b.old) ≡ true }
    ensures { Makes b.old (call_of call) (buffers parents.old states.old cuts.old) (buffers parents.new states.new cuts.new) (record { answer = result; board = b.new }) }
{
    match call {
        Call::Command(command) => command_answer(execute(b, command)),
        Call::Look => view_answer(look_valid(b, parents, states, cuts)),
        Call::Write => write_away(b),
    }
}

fn are_lists_short(kinds: usize, firsts: usize, seconds: usize, answers: usize) -> bool
    ensures { result ≡ lists_short kinds firsts seconds answers }
{
    if firsts < kinds {
        return true;
    }
    if seconds < kinds {
        return true;
    }
    answers < kinds
}

// Opens the card `bytes`, makes every call of the list, stores every answer, and looks at the end; a look between goes
// into the same buffers. `kinds`, `firsts` and `seconds` are the list, a kind and two numbers for each call, as
// `call_at` reads them. `answers` takes the answer of each. `parents`, `states`, `cuts` are the buffers of every look.
// All are judged before anything is done: where one is too short, nothing is touched.
pub fn replay(
    bytes: &[u8],
    kinds: &[u8],
    firsts: &[u32],
    seconds: &[u32],
    answers: &mut [u32],
    parents: &mut [u8],
    states: &mut [u8],
    cuts: &mut [u32],
) -> View
    ensures { Replays bytes.now kinds.now firsts.now seconds.now answers.old answers.new (buffers parents.old states.old cuts.old) (buffers parents.new states.new cuts.new) result }
{
    let mut b = match open_card(bytes) {
        Ok(opened) => opened,
        Err(refusal) => return View::Refused(u32::from(refusal)),
    };
    if are_lists_short(kinds.len(), firsts.len(), seconds.len(), answers.len()) {
        return View::Refused(BUFFER_SHORT);
    }
    if is_too_short(b.n, parents.len(), states.len(), cuts.len()) {
        return View::Refused(BUFFER_SHORT);
    }
    for i in 0..kinds.len() {
        let call = call_at(kinds[i], firsts[i], seconds[i]);
        answers[i] = make_call(&mut b, call, parents, states, cuts);
    }
    look_valid(&b, parents, states, cuts)
}
