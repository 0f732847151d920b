// Which line comes first, by the two outcomes and the state.
ghost use Rattle.std.specs.Prelude.{◌≡◌};
ghost use Rattle.instance.specs.States.{total_in};
ghost use Rattle.why_text.specs.Verdict.{excluded_line, mandatory_line, first_line};

use crate::lines::Line;
use instance::Outcome;
use instance::states::{EXCLUDED, OPTIONAL};

// The total that an outcome comes with; 0 where there is no tree.
pub fn outcome_total(outcome: Outcome) -> u32
    ensures { result ≡ total_in outcome }
{
    match outcome {
        Outcome::Plan(total) => total,
        Outcome::Over(total) => total,
        Outcome::NoTree => 0,
    }
}

fn excluded_by(forced: Outcome, deleted: Outcome, tail: u32, head: u32, budget: u32) -> Line
    ensures { result ≡ excluded_line forced deleted tail head budget }
{
    let least = outcome_total(deleted);
    match forced {
        Outcome::Plan(total) => Line::Excluded {
            tail,
            head,
            total,
            least,
            budget,
        },
        Outcome::Over(total) => Line::Excluded {
            tail,
            head,
            total,
            least,
            budget,
        },
        Outcome::NoTree => Line::ExcludedNone { tail, head },
    }
}

fn mandatory_by(forced: Outcome, deleted: Outcome, budget: u32) -> Line
    ensures { result ≡ mandatory_line forced deleted budget }
{
    let least = outcome_total(forced);
    match deleted {
        Outcome::Plan(total) => Line::Mandatory {
            total,
            least,
            budget,
        },
        Outcome::Over(total) => Line::Mandatory {
            total,
            least,
            budget,
        },
        Outcome::NoTree => Line::MandatoryNone,
    }
}

// forced: the outcome with the arc as the only one into its head. deleted: the outcome without it. tail, head: the arc.
// state: 1, 2 or 3, excluded, optional or mandatory.
pub fn first_line(
    forced: Outcome,
    deleted: Outcome,
    tail: u32,
    head: u32,
    budget: u32,
    state: u8,
) -> Line
    ensures { result ≡ first_line forced deleted tail head budget state }
{
    if state == EXCLUDED {
        return excluded_by(forced, deleted, tail, head, budget);
    }
    if state == OPTIONAL {
        return Line::Optional(outcome_total(forced));
    }
    mandatory_by(forced, deleted, budget)
}
