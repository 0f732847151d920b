// A plan with one thing changed, and the number that document 02, A6 gives it then.
use reference::certificate::Certificate;
use reference::problem::{ABSENT, CELLS, MAX_VERTICES};
use reference::random::Random;
use reference::refusals::{
    BAD_CUT, BUFFER_SHORT, NOT_A_TREE, OVERCHARGED, WRONG_AMOUNTS, WRONG_TOTAL,
};
use reference::shown::{NO_PARENT, PAIRS};
use reference::{access, shown};

// The plan, and its number; where there is nothing to change there is none.
#[derive(Clone, Copy)]
pub struct Change {
    pub certificate: Certificate,
    pub answer: u32,
}

fn changed(certificate: Certificate, answer: u32) -> Option<Change> {
    Some(Change {
        certificate,
        answer,
    })
}

// A vertex other than the root, where there are two.
fn some_vertex(n: u32, root: u32, g: Random) -> u32 {
    if n < 2 {
        return root;
    }
    root.wrapping_add(1).wrapping_add(g.below(n - 1)) % n
}

// Too little sent, for the plan or for a count that was changed: 14.
fn too_short(o: Certificate, n: u32, which: u32) -> Option<Change> {
    let mut c = o;
    match which {
        0 => c.parents_sent = n.wrapping_sub(1),
        1 => c.words_sent = o.count.wrapping_add(o.count).wrapping_sub(1),
        2 => c.count = 2147483648,
        _ => c.count = 4000000000,
    }
    if which == 1 && o.count == 0 {
        return None;
    }
    changed(c, BUFFER_SHORT)
}

// A list that is no tree: 21. At the root, or at another vertex: none, itself, a position that is not there, a ring.
fn no_tree(o: Certificate, n: u32, root: u32, which: u32, g: Random) -> Option<Change> {
    if which == 0 {
        return changed(
            o.with_parent(root, access::narrow(g.below(255))),
            NOT_A_TREE,
        );
    }
    let v = some_vertex(n, root, g);
    if v == root {
        return None;
    }
    let parent = access::byte(&o.parents, v);
    if which == 4 && parent == root {
        return None;
    }
    match which {
        1 => changed(o.with_parent(v, NO_PARENT), NOT_A_TREE),
        2 => changed(o.with_parent(v, access::narrow(v)), NOT_A_TREE),
        3 => changed(o.with_parent(v, access::narrow(n)), NOT_A_TREE),
        _ => changed(o.with_parent(parent, access::narrow(v)), NOT_A_TREE),
    }
}

// A total that is not the tree's: 22.
fn other_total(o: Certificate, which: u32) -> Option<Change> {
    let mut c = o;
    match which {
        0 => c.total = o.total.wrapping_add(1),
        1 => c.total = o.total.wrapping_sub(1),
        _ => c.total = 0u32.wrapping_sub(o.total.wrapping_add(1)),
    }
    changed(c, WRONG_TOTAL)
}

// As many pairs as that, those that are added with one set and one amount.
fn filled(o: Certificate, set: u32, amount: u32, count: u32) -> Certificate {
    let mut c = o;
    for k in 0..count {
        if c.count < count {
            c = c.with_pair(set, amount);
        }
    }
    c
}

// A bad cut: 23. With one position every cut is one.
fn bad_cut(o: Certificate, n: u32, root: u32, which: u32, g: Random) -> Option<Change> {
    if n < 2 {
        return changed(o.with_pair(which, 0), BAD_CUT);
    }
    if which == 0 {
        return changed(
            filled(o, shown::only(some_vertex(n, root, g)), 0, PAIRS + 1),
            BAD_CUT,
        );
    }
    if o.count == 0 {
        return None;
    }
    let at = g.below(o.count).wrapping_mul(2);
    let set = access::word(&o.words, at);
    if which == 1 {
        return changed(o.with_word(at, 0), BAD_CUT);
    }
    if which == 2 {
        return changed(o.with_word(at, set | shown::only(root)), BAD_CUT);
    }
    if n < MAX_VERTICES {
        return changed(o.with_word(at, set | shown::only(n)), BAD_CUT);
    }
    None
}

// Amounts that charge too much: 24. One more on a cut, the largest, 61 pairs with the largest, two amounts that add to
// nothing in 32 bits.
fn too_dear(o: Certificate, which: u32, g: Random) -> Option<Change> {
    if o.count == 0 {
        return None;
    }
    let at = g.below(o.count).wrapping_mul(2);
    let value = at.wrapping_add(1);
    let set = access::word(&o.words, at);
    let amount = access::word(&o.words, value);
    if which == 0 {
        return changed(o.with_word(value, amount.wrapping_add(1)), OVERCHARGED);
    }
    if which == 1 {
        return changed(o.with_word(value, 4294967295), OVERCHARGED);
    }
    if which == 2 {
        let least = o.with_word(value, 4294967295);
        return changed(filled(least, set, 4294967295, PAIRS), OVERCHARGED);
    }
    if PAIRS < o.count.wrapping_add(2) {
        return None;
    }
    changed(
        o.with_pair(set, 2147483648).with_pair(set, 2147483648),
        OVERCHARGED,
    )
}

// Amounts that add to less: 25. One less on a cut, the last cut left out.
fn too_cheap(o: Certificate, which: u32, g: Random) -> Option<Change> {
    if o.count == 0 {
        return None;
    }
    let mut c = o;
    let value = g.below(o.count).wrapping_mul(2).wrapping_add(1);
    if which == 0 {
        c = c.with_word(value, access::word(&o.words, value).wrapping_sub(1));
    } else {
        c.count = c.count.wrapping_sub(1);
    }
    changed(c, WRONG_AMOUNTS)
}

// The first pair moved behind the others.
fn moved(o: Certificate) -> Certificate {
    let first = access::word(&o.words, 0);
    let amount = access::word(&o.words, 1);
    let mut c = o;
    let last = o.count.wrapping_add(o.count).wrapping_sub(2);
    for k in 0..last {
        c = c.with_word(k, access::word(&o.words, k.wrapping_add(2)));
    }
    c.with_word(last, first)
        .with_word(last.wrapping_add(1), amount)
}

// What may be changed: one cut of amount 0 more, no more sent than is needed, a cut moved.
fn harmless(o: Certificate, n: u32, root: u32, which: u32, g: Random) -> Option<Change> {
    let mut c = o;
    if which == 0 {
        if n < 2 || PAIRS <= o.count {
            return None;
        }
        return changed(o.with_pair(shown::only(some_vertex(n, root, g)), 0), 0);
    }
    if which == 1 {
        c.parents_sent = n;
        c.words_sent = o.count.wrapping_add(o.count);
        return changed(c, 0);
    }
    if o.count < 2 || PAIRS < o.count {
        return None;
    }
    changed(moved(o), 0)
}

// Another tree with its own total, which the cuts do not add to unless it is as cheap: one arc for another.
fn other_tree(
    table: &[u32; CELLS],
    o: Certificate,
    n: u32,
    root: u32,
    g: Random,
) -> Option<Change> {
    let v = some_vertex(n, root, g);
    if v == root {
        return None;
    }
    let mut c = o.with_parent(v, access::narrow(g.next().below(n)));
    let parents = c.parents;
    c.total = shown::tree_total(table, &parents, n, root);
    if c.total == o.total || c.total == ABSENT {
        return None;
    }
    if shown::tree_spans(&parents, n, root) {
        return changed(c, WRONG_AMOUNTS);
    }
    None
}

// The changes in the order of their numbers.
pub const KINDS: u32 = 26;

pub fn nth_change(
    table: &[u32; CELLS], // the weights of the remaining arcs
    o: Certificate, // an accepted plan
    n: u32, // how many vertices there are
    root: u32, // one of them
    kind: u32, // which change
    g: Random, // where to change
) -> Option<Change> {
    if kind < 4 {
        return too_short(o, n, kind);
    }
    if kind < 9 {
        return no_tree(o, n, root, kind - 4, g);
    }
    if kind < 12 {
        return other_total(o, kind - 9);
    }
    if kind < 16 {
        return bad_cut(o, n, root, kind - 12, g);
    }
    if kind < 20 {
        return too_dear(o, kind - 16, g);
    }
    if kind < 22 {
        return too_cheap(o, kind - 20, g);
    }
    if kind < 25 {
        return harmless(o, n, root, kind - 22, g);
    }
    other_tree(table, o, n, root, g)
}
