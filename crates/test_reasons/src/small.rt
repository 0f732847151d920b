// Boards of 1 to 5 vertices: every pair, whether it is an arc or not, with one vertex more than there are.
use crate::{asked, sessions};
use harness::session::Session;
use harness::{calls, session};
use reference::random::Random;
use reference::sample;
use reference::tally::Tally;

fn tried_pairs(tally: Tally, s: Session, seed: Random) -> Tally {
    let p = session::problem_now(s);
    let table = p.costs();
    let look = calls::look(s.board);
    let side = p.n.wrapping_add(1);
    let count = side.wrapping_mul(side);
    let mut t = tally;
    let mut r = seed;
    if side == 0 {
        return t;
    }
    for k in 0..count {
        t = asked::tried(t, s, &table, p, look, k / side, k % side, r);
        r = r.next();
    }
    t
}

// The k-th instance has k % 5 + 1 vertices.
fn tried(tally: Tally, k: u32) -> Tally {
    let p = sample::small_instance((k / 5).wrapping_mul(6).wrapping_add(k % 5));
    let g = Random::seeded(k);
    let progress = sessions::nth(tally, p, k, g.below(20));
    tried_pairs(progress.tally, progress.session, g.next())
}

pub fn run(count: u32) -> Tally {
    (0..count).fold(Tally::zero(), |t, k| tried(t, k))
}
