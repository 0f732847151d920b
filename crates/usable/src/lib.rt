// The arcs of a matrix that some arborescence within a limit uses. Each arc is judged once; most are settled by a tree
// that is known already, by their reduced costs or by an exchange of arcs, and only the rest is planned. Every tree
// that is found settles all its arcs.
#![tactic(auto)]

pub mod forced; // forced.rt: the cheapest tree that uses an arc, by planning
mod judge; // judge.rt: whether an arc is usable
mod table; // table.rt: a tree's arcs in a table

ghost use Rattle.instance.specs.Matrix.{matrix_instance};
ghost use Rattle.usable.specs.Table.{UsableTable};
ghost use Rattle.usable.specs.Fitting.{FittingPlan};

use instance::limits::{CELLS, VERTICES};
use judge::judge_head;
use table::add_tree;

// What the arcs are judged by.
#[derive(Clone, Copy)]
pub struct Fitting<'a> {
    pub m: &'a [u32; CELLS], // the weights of the remaining arcs
    pub reduced: &'a [u32; CELLS], // their reduced costs, which planning leaves
    pub parents: &'a [u8; VERTICES], // a cheapest arborescence
    pub n: u32, // the number of vertices
    pub root: u32, // one of them
    pub total: u32, // the cheapest total
    pub limit: u32, // what a total may be at most: no less than the cheapest
}

// 1 at the cell of each usable arc.
pub fn usable_arcs(plan: Fitting) -> [u8; CELLS]
    requires { FittingPlan plan.m.now plan.reduced.now plan.parents.now plan.n plan.root plan.total plan.limit }
    ensures { UsableTable (matrix_instance plan.entry.n plan.entry.root plan.entry.limit plan.entry.m.now) result }
{
    let mut used = [0u8; CELLS];
    add_tree(plan.parents, plan.n, plan.root, &mut used);
    for head in 0..plan.n {
        judge_head(plan, head, &mut used);
    }
    used
}
