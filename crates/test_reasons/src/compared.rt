// Whether what a call gave is what it has to give.
use crate::calls::Given;
use harness::buffers;
use reference::log::Log;
use reference::problem::{CELLS, Problem};
use reference::shown::CUT_WORDS;
use reference::{access, shown};
use reference_reasons::due::{Due, Reason};
use reference_reasons::{due, restricted};

// Whether the buffers are as before from these places on.
fn untouched_from(g: Given, parents_from: u32, cuts_from: u32) -> bool {
    buffers::bytes_untouched(&g.parents, parents_from, buffers::PARENTS as u32)
        && buffers::words_untouched(&g.cuts, cuts_from, buffers::CUTS as u32)
}

// The plan that was shown, over the remaining arcs that the table holds: a tree with this total and the cuts that prove
// it, or the set that no arc enters. Where all trees are listed, it is the first of the cheapest.
fn plan_right(
    table: &[u32; CELLS],
    n: u32,
    root: u32,
    d: Due,
    g: Given,
    kind: u32,
    total: u32,
) -> bool {
    shown::parents_right(table, &g.parents, n, root, kind, total)
        && shown::cuts_right(table, &g.cuts, n, root, g.pairs, kind, total)
        && d.trees
            .is_none_or(|trees| access::equal_fronts(&g.parents, &trees.first, n))
}

// Where no plan is shown, nothing is touched.
pub fn is_right(table: &[u32; CELLS], n: u32, root: u32, d: Due, g: Given) -> bool {
    if g.reason != d.reason {
        return false;
    }
    match g.reason {
        Ok(Reason::Priced(kind, total)) => untouched_from(g, n, CUT_WORDS)
            && plan_right(table, n, root, d, g, kind, total),
        _ => untouched_from(g, 0, 0),
    }
}

// What `why` gave of a pair; the table holds the weights of the remaining arcs of the log's instance p.
pub fn why_right(
    table: &[u32; CELLS],
    p: Problem,
    log: Log,
    tail: u32,
    head: u32,
    g: Given,
) -> bool {
    let only = restricted::with_only(table, tail, head);
    let d = due::why(p, log, &only, tail, head);
    is_right(&only, p.n, p.root, d, g)
}

// What `plan_without` gave of it.
pub fn without_right(table: &[u32; CELLS], p: Problem, tail: u32, head: u32, g: Given) -> bool {
    let rest = restricted::without(table, tail, head);
    let d = due::without(p, &rest, tail, head);
    is_right(&rest, p.n, p.root, d, g)
}
