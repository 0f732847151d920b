// Second results go into words that the caller lends: set where a call is accepted, and left as they were where it is
// refused.
ghost use Rattle.std.specs.Prelude.{◌≡◌};
ghost use Rattle.card.specs.Write.{written_of};
ghost use Rattle.runs.specs.Planning.{view_of, view_number};
ghost use Rattle.planner.specs.Enumerating.{listing_from, list_answer};
ghost use Rattle.feed_planner.specs.Store.{kept};
ghost use Rattle.feed_planner.specs.Words.{words, outcome_kind, outcome_total, ended_number, listing_words, runs_words, words_with};
ghost use Rattle.feed_planner.specs.Looking.{Views};
ghost use Rattle.feed_planner.specs.Reasons.{ReasonInWords};

use enumeration::Ended;
use instance::Outcome;
use instance::refusals::Refusal;
use planner::{Listing, Reason, View};

pub fn keep_length(answer: u32, length: usize, word: &mut usize) -> u32
    ensures { (result ≡ answer) × (word.new ≡ kept answer length word.old) }
{
    if answer == 0 {
        *word = length;
    }
    answer
}

// The same of a card that was written, or refused.
pub fn keep_written(written: Result<usize, Refusal>, word: &mut usize) -> u32
    ensures { (result ≡ (written_of written).answer) × (word.new ≡ kept (written_of written).answer (written_of written).length word.old) }
{
    match written {
        Ok(length) => {
            *word = length;
            0
        }
        Err(refusal) => u32::from(refusal),
    }
}

fn outcome_kind(outcome: Outcome) -> u32
    ensures { result ≡ outcome_kind outcome }
{
    match outcome {
        Outcome::NoTree => 0,
        Outcome::Plan(_) => 1,
        Outcome::Over(_) => 2,
    }
}

fn outcome_total(outcome: Outcome) -> u32
    ensures { result ≡ outcome_total outcome }
{
    match outcome {
        Outcome::NoTree => 0,
        Outcome::Plan(total) => total,
        Outcome::Over(total) => total,
    }
}

pub fn keep_view(view: View, kind: &mut u32, total: &mut u32, pairs: &mut u32) -> u32
    ensures { Views view (words kind.old total.old pairs.old) (words kind.new total.new pairs.new) result }
{
    match view {
        View::Shown(outcome, count) => {
            *kind = outcome_kind(outcome);
            *total = outcome_total(outcome);
            *pairs = count;
            0
        }
        View::Refused(answer) => answer,
    }
}

pub fn keep_runs(view: Result<Outcome, Refusal>, kind: &mut u32, total: &mut u32) -> u32
    ensures { (result ≡ view_number (view_of view)) × (words kind.new total.new 0 ≡ runs_words (view_of view) (words kind.old total.old 0)) }
{
    match view {
        Ok(outcome) => {
            *kind = outcome_kind(outcome);
            *total = outcome_total(outcome);
            0
        }
        Err(refusal) => u32::from(refusal),
    }
}

fn ended_number(ended: Ended) -> u32
    ensures { result ≡ ended_number ended }
{
    match ended {
        Ended::Complete => 0,
        Ended::AtLimit => 1,
        Ended::NoRoom => 2,
    }
}

pub fn keep_listing(
    listing: Result<Listing, Refusal>,
    ended: &mut u32,
    trees: &mut u32,
    tries: &mut u32,
) -> u32
    ensures { (result ≡ list_answer (listing_from listing)) × (words ended.new trees.new tries.new ≡ listing_words (listing_from listing) (words ended.old trees.old tries.old)) }
{
    match listing {
        Ok(listed) => {
            *ended = ended_number(listed.ended);
            *trees = listed.trees;
            *tries = listed.tries;
            0
        }
        Err(refusal) => u32::from(refusal),
    }
}

// Where nothing was planned the last three words are 0, as those of no tree and no pair.
pub fn keep_reason(
    found: Reason,
    reason: &mut u32,
    setter: &mut u32,
    rival: &mut u32,
    kind: &mut u32,
    total: &mut u32,
    pairs: &mut u32,
) -> u32
    ensures { ReasonInWords found
        (words_with reason.old setter.old rival.old (words kind.old total.old pairs.old))
        (words_with reason.new setter.new rival.new (words kind.new total.new pairs.new)) result }
{
    match found {
        Reason::Banned(by) => {
            *reason = 1;
            *setter = by;
            *rival = 0;
            keep_view(View::Shown(Outcome::NoTree, 0), kind, total, pairs)
        }
        Reason::Rival(other, by) => {
            *reason = 2;
            *setter = by;
            *rival = other.0;
            keep_view(View::Shown(Outcome::NoTree, 0), kind, total, pairs)
        }
        Reason::Priced(outcome, count) => {
            *reason = 3;
            *setter = 0;
            *rival = 0;
            keep_view(View::Shown(outcome, count), kind, total, pairs)
        }
        Reason::Refused(answer) => answer,
    }
}
