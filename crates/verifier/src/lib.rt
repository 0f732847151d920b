// A plan made elsewhere, judged: its tree, its total, and the cuts that are to prove that no tree is cheaper. Nothing
// is planned: cuts that overcharge no arc and add to the total prove it by themselves, whoever found them.
#![tactic(auto)]

mod arcs; // arcs.rt: what a plan is judged by
mod cuts; // cuts.rt: the cuts, and what they charge
mod tree; // tree.rt: the tree and its total

ghost use Rattle.std.specs.Prelude.{◌≡◌, ◌≤◌, ◌<◌, length, take};
ghost use Rattle.instance.specs.Limits.{max_vertices};
ghost use Rattle.instance.specs.Instance.{without_budget};
ghost use Rattle.instance.specs.RefusalNumbers.{answer_of};
ghost use Rattle.certificate.specs.Certificate.{certificate_fault, certificate_refusal};
ghost use Rattle.verifier.specs.Judged.{judged};
ghost use Rattle.verifier.specs.Pairs.{cuts_of};

use arcs::Arcs;
use cuts::{adds_to, all_covered, are_cuts};
use instance::limits::CELLS;
use instance::refusals::Refusal;
use remaining::remaining_matrix;
use tree::{has_total, is_arborescence};

// The first fault, if there is one. All cuts are judged before any arc.
fn check_parts(
    arcs: &Arcs<'_>,
    parents: &[u8], // the tree, one byte for each vertex
    cuts: &[[u32; 2]], // pairs of a set and a value
    total: u32, // what the tree is said to cost
) -> Result<(), Refusal>
    requires { arcs.now.n ≤ length parents.now }
    ensures { answer_of result ≡ certificate_fault (judged arcs.now) (take arcs.now.n parents.now) total (cuts_of cuts.now) }
{
    if !is_arborescence(arcs, parents) {
        return Err(Refusal::NotArborescence);
    }
    if !has_total(arcs, parents, total) {
        return Err(Refusal::WrongTotal);
    }
    if !are_cuts(arcs, cuts) {
        return Err(Refusal::BadCut);
    }
    if !all_covered(arcs, cuts) {
        return Err(Refusal::Overcharged);
    }
    if !adds_to(cuts, total) {
        return Err(Refusal::WrongValues);
    }
    Ok(())
}

// Accepts the plan, or says why not.
pub fn judge_certificate<'a>(
    weights: &'a [u32; CELLS], // the instance: its weights and marks
    marks: &'a [u8; CELLS],
    parents: &[u8], // the tree, one byte for each vertex
    cuts: &[u32], // pairs of a set and a value
    n: u32, // the number of vertices
    root: u32, // one of them
    total: u32, // what the tree is said to cost
    count: u32, // the number of pairs
) -> Result<(), Refusal>
    requires { (n ≤ max_vertices) × (root < n) }
    ensures { answer_of result ≡ certificate_refusal (without_budget n root weights.now marks.entry.now) parents.now total count cuts.entry.now }
{
    let (pairs, _) = cuts.as_chunks::<2>();
    if parents.len() < (n as usize) || pairs.len() < (count as usize) {
        return Err(Refusal::BufferShort);
    }
    let m = remaining_matrix(weights, marks, n, root);
    let arcs = Arcs {
        weights: &m,
        n,
        root,
    };
    check_parts(&arcs, parents, &pairs[..count as usize], total)
}
