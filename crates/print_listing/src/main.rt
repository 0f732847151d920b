// Reads a card on standard input and prints all its plans, or the line of its refusal, on standard output; it does
// nothing else. A read or a write that fails is named on standard error. The listing is proved in `planner` and each
// line in `listing_text`; this program only reads, and writes the lines one after the other.
#![tactic(auto)]

ghost use Rattle.std.specs.Prelude.{◌≡◌, ◌≤◌, ◌<◌, length, IfOk};
ghost use Rattle.instance.specs.Limits.{max_vertices, max_budget, cells};
ghost use Rattle.instance.specs.Matrix.{Weights};
ghost use Rattle.print_listing.specs.Boards.{AsOpened};

use board::Board;
use card_input::{ReadFailed, STDERR, STDOUT, read_input};
use enumeration::Ended;
use instance::limits::{CELLS, MAX_TRIES};
use instance::refusals::Refusal;
use listing_text::{MAX_LINE, put_heading, put_tree};
use planner::{MAX_HISTORY_CARD, list_plans, open_card};
use report_text::write_refusal;

// One byte more than the longest card of either kind: what follows does not matter (long_by_part in
// history_format/proofs/LongHistory.antt).
const MAX_INPUT: usize = MAX_HISTORY_CARD + 1;

// The room for trees, in bytes: 512 trees of 32 positions. No more, since it lies on the stack.
const MAX_TREES: usize = 16_384;

// The line of a refused card.
fn print_refusal(answer: u32) -> bool {
    let mut line = [0u8; MAX_LINE];
    let end = write_refusal(answer, &mut line);
    io::write_all(STDOUT, &line[..end])
}

// The first two lines.
fn print_heading(n: u32, root: u32, budget: u32, ended: Ended, trees: u32, tries: u32) -> bool
    requires { (n ≤ max_vertices) × (root < n) × (budget ≤ max_budget) }
{
    let mut lines = [0u8; MAX_LINE];
    let end = put_heading(n, root, budget, ended, trees, tries, &mut lines, 0);
    io::write_all(STDOUT, &lines[..end])
}

// The line of one tree.
fn print_tree(weights: &[u32; CELLS], parents: &[u8], n: u32, root: u32) -> bool
    requires { (length weights.now ≡ cells) × Weights weights.now × (n ≤ max_vertices) × (n ≤ length parents.now) }
{
    let mut line = [0u8; MAX_LINE];
    let end = put_tree(weights, parents, n, root, &mut line, 0);
    io::write_all(STDOUT, &line[..end])
}

// The lines of trees that stand one after the other, n bytes each.
fn print_trees(weights: &[u32; CELLS], trees: &[u8], n: u32, root: u32) -> bool
    requires { (length weights.now ≡ cells) × Weights weights.now × (1 ≤ n) × (n ≤ max_vertices) }
{
    let size = n as usize;
    let mut at = 0;
    while size <= trees.len() - at {
        let end = at + size;
        if !print_tree(weights, &trees[at..end], n, root) {
            return false;
        }
        at = end;
    }
    true
}

// All plans of a board.
fn print_board(b: Board) -> bool
    requires { AsOpened b }
{
    let n = b.n;
    let root = b.root;
    let budget = b.budget;
    // a copy of the weights alone: a board that is read after the listing would be kept whole beside the listing's own
    let weights = b.weights;
    let mut trees = [0u8; MAX_TREES];
    let listing = list_plans(b, MAX_TRIES, &mut trees);
    let Ok(listed) = listing else {
        // a valid board is not refused
        return true;
    };
    if !print_heading(n, root, budget, listed.ended, listed.trees, listed.tries) {
        return false;
    }
    let end = listed.trees as usize * n as usize;
    print_trees(&weights, &trees[..end], n, root)
}

// All plans of an opened card, or the line of its refusal.
fn print_card(opened: Result<Board, Refusal>) -> bool
    requires { IfOk opened AsOpened }
{
    match opened {
        Ok(board) => print_board(board),
        Err(refusal) => print_refusal(u32::from(refusal)),
    }
}

// Reads a card and opens it. The card is let go here, before trees take its place on the stack.
fn open_input(rt: &HostRuntime) -> Result<Result<Board, Refusal>, ReadFailed>
    ensures { IfOk result (λ opened. IfOk opened AsOpened) }
{
    let mut card = [0u8; MAX_INPUT];
    let length = read_input(rt, &mut card)?;
    Ok(open_card(&card[..length]))
}

fn main(rt: HostRuntime) {
    let Ok(opened) = open_input(&rt) else {
        io::write_all(STDERR, b"print_listing: cannot read standard input\n");
        return;
    };
    if !print_card(opened) {
        io::write_all(STDERR, b"print_listing: cannot write standard output\n");
    }
}
