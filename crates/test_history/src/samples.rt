// Random instances with records.
use reference::card::Card;
use reference::history::History;
use reference::problem::{MAX_VERTICES, Problem};
use reference::random::Random;
use reference::{card, history_card, history_sample, sample};

#[derive(Clone, Copy)]
pub struct Sample {
    pub problem: Problem,
    pub history: History,
}

// Three of four have 1 to 6 positions, the others any number of them.
fn nth_problem(k: u32) -> Problem {
    if k % 4 == 3 {
        return sample::any_instance(Random::seeded(k), k / 4 % MAX_VERTICES + 1);
    }
    sample::small_instance(k)
}

// The k-th sample: any number of records up to 200.
pub fn nth(k: u32) -> Sample {
    let p = nth_problem(k);
    let count = history_sample::nth_count(k / 4, Random::seeded(k));
    with_records(p, count, k)
}

// The k-th sample with few records, and at most four positions.
pub fn nth_small(k: u32) -> Sample {
    let n = k % 4 + 1;
    let p = sample::any_instance(Random::seeded(k), n);
    with_records(p, k / 4 % 5, k)
}

pub fn with_records(p: Problem, count: u32, k: u32) -> Sample {
    Sample {
        problem: p,
        history: history_sample::some_history(p, count, k % 4096 * 256),
    }
}

pub fn recorded_card(s: Sample) -> Card {
    history_card::build(s.problem, s.history)
}

pub fn plain_card(s: Sample) -> Card {
    card::build(s.problem)
}
