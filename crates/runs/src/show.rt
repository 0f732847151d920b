// The states of all edges and the replacement costs of the tree's, into the caller's buffers: n times n places, both
// ways alike.
ghost use Rattle.std.specs.Prelude.{◌≡◌, ◌≢◌, ◌*◌, ◌≤◌, ◌<◌, length, get_or, take};
ghost use Rattle.base.specs.Lists.{tabulate, in_front};
ghost use Rattle.instance.specs.Limits.{max_vertices};
ghost use Rattle.instance.specs.StateNumbers.{state_number};
ghost use Rattle.prim.specs.Place.{Placed};
ghost use Rattle.runs.specs.Tables.{Places, BetweenTable};
ghost use Rattle.runs.specs.Replacement.{Costs};
ghost use Rattle.runs.specs.Show.{inside_state, outside_state, tree_state, place_state, closed_state, pair_cost, cost_at};

use crate::replacement::NO_REPLACEMENT;
use instance::limits::{CELLS, NO_ARC, VERTICES};
use instance::states::State;
use prim::keys::NO_KEY;
use prim::place::Place;

// "4,294,967,294 for whatever is not in the tree"
pub const NOT_IN_TREE: u32 = 4_294_967_294;

// An edge of the tree: mandatory where no tree within the limit is without it.
fn inside_state(cost: u32, total: u32, limit: u32) -> State
    ensures { state_number result ≡ inside_state cost total limit }
{
    if cost != NO_REPLACEMENT && total as u64 + cost as u64 <= limit as u64 {
        return State::Optional;
    }
    State::Mandatory
}

// Another edge, by its key and the greatest key on the tree's path between its ends.
fn outside_state(key: u32, greatest: u32, total: u32, limit: u32) -> State
    ensures { state_number result ≡ outside_state key greatest total limit }
{
    if key == NO_KEY || greatest == 0 {
        return State::Excluded;
    }
    if total as u64 + key as u64 <= limit as u64 + greatest as u64 {
        return State::Optional;
    }
    State::Excluded
}

// What the states are told by, where there is a tree: the greatest keys between any two vertices, the costs of the
// tree's edges, its total and the limit.
#[derive(Clone, Copy)]
pub struct Shown<'a> {
    pub keys: &'a [u32; CELLS],
    pub between: &'a [u32; CELLS],
    pub parents: &'a [u8; VERTICES],
    pub costs: &'a [u32; VERTICES],
    pub n: u32,
    pub total: u32,
    pub limit: u32,
    ghost places: { Places n parents.now },
    ghost between_is: { BetweenTable keys.now n parents.now between.now },
    ghost costs_are: { Costs keys.now n (take n parents.now) n costs.now },
}

// The state of an edge, where there is a tree.
fn tree_state(shown: &Shown<'_>, i: u32, j: u32) -> State
    requires { (i < shown.now.n) × (j < shown.now.n) × (i ≢ j) }
    ensures { state_number result ≡ tree_state shown.now.keys.now shown.now.n (take shown.now.n shown.now.parents.now) shown.now.total shown.now.limit i j }
{
    if shown.parents[j as usize] == i as u8 {
        return inside_state(shown.costs[j as usize], shown.total, shown.limit);
    }
    if shown.parents[i as usize] == j as u8 {
        return inside_state(shown.costs[i as usize], shown.total, shown.limit);
    }
    let key = shown.keys[(32 * i + j) as usize];
    let greatest = shown.between[(32 * i + j) as usize];
    outside_state(key, greatest, shown.total, shown.limit)
}

// The state of a place: absent on the diagonal and where no price is.
fn place_state(weights: &[u32], shown: &Shown<'_>, k: u32, i: u32, j: u32) -> State
    requires { (shown.now.n * shown.now.n ≤ length weights.now) × (k < shown.now.n * shown.now.n) × Placed shown.now.n k i j }
    ensures { state_number result ≡ place_state weights.now shown.now.keys.now shown.now.n (take shown.now.n shown.now.parents.now) shown.now.total shown.now.limit k }
{
    if i == j || weights[k as usize] == NO_ARC {
        return State::Absent;
    }
    tree_state(shown, i, j)
}

pub fn write_states(weights: &[u32], shown: &Shown<'_>, states: &mut [u8])
    requires { (shown.now.n * shown.now.n ≤ length weights.now) × (shown.now.n * shown.now.n ≤ length states.old) }
    ensures { states.new ≡ in_front (tabulate (shown.now.n * shown.now.n) (place_state weights.now shown.now.keys.now shown.now.n (take shown.now.n shown.now.parents.now) shown.now.total shown.now.limit)) states.old }
{
    let mut place = Place::first();
    for k in 0..shown.n * shown.n {
        let state = place_state(weights, shown, k, place.row, place.column);
        states[k as usize] = u8::from(state);
        place = place.next(shown.n);
    }
}

// The state of a place, where there is no tree.
fn closed_state(weights: &[u32], n: u32, k: u32) -> State
    requires { (n * n ≤ length weights.now) × (k < n * n) }
    ensures { state_number result ≡ closed_state weights.now n k }
{
    if k / n == k % n || weights[k as usize] == NO_ARC {
        return State::Absent;
    }
    State::Excluded
}

pub fn write_closed(weights: &[u32], n: u32, states: &mut [u8])
    requires { (n ≤ max_vertices) × (n * n ≤ length weights.now) × (n * n ≤ length states.old) }
    ensures { states.new ≡ in_front (tabulate (n * n) (closed_state weights.now n)) states.old }
{
    for k in 0..n * n {
        states[k as usize] = u8::from(closed_state(weights, n, k));
    }
}

// The cost of a place: of an edge of the tree, whichever way.
fn cost_at(parents: &[u8; VERTICES], costs: &[u32; VERTICES], n: u32, i: u32, j: u32) -> u32
    requires { Places n parents.now × (i < n) × (j < n) }
    ensures { result ≡ pair_cost (take n parents.now) (λ v. get_or costs.now v 0) i j }
{
    if parents[j as usize] == i as u8 {
        return costs[j as usize];
    }
    if parents[i as usize] == j as u8 {
        return costs[i as usize];
    }
    NOT_IN_TREE
}

pub fn write_costs(parents: &[u8; VERTICES], costs: &[u32; VERTICES], n: u32, out: &mut [u32])
    requires { Places n parents.now × (n * n ≤ length out.old) }
    ensures { out.new ≡ in_front (tabulate (n * n) (cost_at (take n parents.now) (λ v. get_or costs.now v 0) n)) out.old }
{
    let mut place = Place::first();
    for k in 0..n * n {
        out[k as usize] = cost_at(parents, costs, n, place.row, place.column);
        place = place.next(n);
    }
}
