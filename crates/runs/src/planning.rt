// The public call for passive runs.
ghost use Rattle.std.specs.Prelude.{◌*◌, ◌≤◌, length};
ghost use Rattle.instance.specs.Limits.{max_vertices};
ghost use Rattle.spanning.specs.Graph.{graph_of};
ghost use Rattle.runs.specs.Planning.{view_of, PlansRuns};
ghost use Rattle.runs.specs.Steps.{Showable, ShowsTree, ShowsNone};

use crate::refusal::check_runs;
use crate::replacement::{KeyedTree, edge_costs};
use crate::show::{NOT_IN_TREE, Shown, write_closed, write_costs, write_states};
use crate::tables::fill_tables;
use instance::Outcome;
use instance::limits::{CELLS, VERTICES};
use instance::refusals::Refusal;
use prim::keys::key_table;
use prim::tree::{cheapest_tree, total_of};

// What is shown of a tree.
fn show_tree(
    weights: &[u32],
    keys: &[u32; CELLS],
    parents: &[u8; VERTICES],
    n: u32,
    budget: u32,
    states: &mut [u8],
    costs: &mut [u32],
) -> Outcome
    requires { Showable weights.now parents.now n (length states.old) (length costs.old) }
    ensures { ShowsTree weights.now keys.now parents.now n budget
        states.old states.new costs.old costs.new result }
{
    let tables = fill_tables(keys, parents, n);
    let found = edge_costs(&KeyedTree {
        keys,
        below: &tables.below,
        parents,
        n,
    });
    let total = total_of(weights, parents, n);
    write_costs(parents, &found, n, costs);
    let shown = Shown {
        keys,
        between: &tables.between,
        parents,
        costs: &found,
        n,
        total,
        limit: budget.max(total),
    };
    write_states(weights, &shown, states);
    if total <= budget {
        Outcome::Plan(total)
    } else {
        Outcome::Over(total)
    }
}

// What is shown where there is no tree.
fn show_none(weights: &[u32], n: u32, states: &mut [u8], costs: &mut [u32])
    requires { (n ≤ max_vertices) × (n * n ≤ length weights.now) × (n * n ≤ length states.old) × (n * n ≤ length costs.old) }
    ensures { ShowsNone weights.now n states.old states.new costs.old costs.new }
{
    write_closed(weights, n, states);
    costs[..(n * n) as usize].fill(NOT_IN_TREE);
}

pub fn plan_runs(
    prices: &[u32],
    marks: &[u8],
    count: u32,
    budget: u32,
    states: &mut [u8],
    replacements: &mut [u32],
) -> Result<Outcome, Refusal>
    ensures { PlansRuns (graph_of count prices.now marks.now) budget
        states.old states.new replacements.old replacements.new (view_of result) }
{
    check_runs(prices, marks, count, states.len(), replacements.len())?;
    let keys = key_table(prices, marks, count);
    match cheapest_tree(&keys, count) {
        Some(parents) => Ok(show_tree(
            prices,
            &keys,
            &parents,
            count,
            budget,
            states,
            replacements,
        )),
        None => {
            show_none(prices, count, states, replacements);
            Ok(Outcome::NoTree)
        }
    }
}
