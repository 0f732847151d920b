// A certificate (document 02, A6: a plan made elsewhere) as it is sent, and what the document answers to it.
use crate::access::word;
use crate::problem::{ABSENT, CELLS};
use crate::refusals::{BAD_CUT, BUFFER_SHORT, NOT_A_TREE, OVERCHARGED, WRONG_AMOUNTS, WRONG_TOTAL};
use crate::shown;
use crate::shown::PAIRS;

// Room for more than a plan needs: bytes for the feeder list, words for the pairs.
pub const PARENT_ROOM: usize = 40;

pub const WORD_ROOM: usize = 130;

// "a feeder list, a total, a count of cuts and that many pairs of words", and how much of the list and of the words is
// sent.
#[derive(Clone, Copy)]
pub struct Certificate {
    pub parents: [u8; PARENT_ROOM],
    pub total: u32,
    pub count: u32,
    pub words: [u32; WORD_ROOM],
    pub parents_sent: u32,
    pub words_sent: u32,
}

impl Certificate {
    // Nothing but what may stand behind a plan.
    pub fn empty() -> Certificate {
        Certificate {
            parents: [7; PARENT_ROOM],
            total: 0,
            count: 0,
            words: [4026531841; WORD_ROOM],
            parents_sent: PARENT_ROOM as u32,
            words_sent: WORD_ROOM as u32,
        }
    }

    pub fn with_parent(self, vertex: u32, parent: u8) -> Certificate {
        let mut o = self;
        o.parents[vertex as usize % PARENT_ROOM] = parent;
        o
    }

    pub fn with_word(self, at: u32, value: u32) -> Certificate {
        let mut o = self;
        o.words[at as usize % WORD_ROOM] = value;
        o
    }

    // One pair more.
    pub fn with_pair(self, set: u32, amount: u32) -> Certificate {
        let at = self.count.wrapping_mul(2);
        let mut o = self
            .with_word(at, set)
            .with_word(at.wrapping_add(1), amount);
        o.count = o.count.wrapping_add(1);
        o
    }

    // Fewer than n bytes, or fewer than twice the count of words.
    fn is_short(&self, n: u32) -> bool {
        self.parents_sent < n || u64::from(self.words_sent) < 2 * u64::from(self.count)
    }
}

// "a feed tree with 255 at the root"
fn is_tree(table: &[u32; CELLS], parents: &[u8], n: u32, root: u32) -> bool {
    shown::tree_total(table, parents, n, root) != ABSENT && shown::tree_spans(parents, n, root)
}

// "every cut a non-empty set of positions without the root", and not "more than 61".
fn sets_right(words: &[u32], n: u32, root: u32, count: u32) -> bool {
    count <= PAIRS && (0..count).all(|k| shown::is_cut_set(n, root, word(words, k.wrapping_add(k))))
}

// "23 a bad cut or more than 61, 24 a link overcharged, 25 amounts not adding up"
fn check_cuts(table: &[u32; CELLS], o: &Certificate, n: u32, root: u32) -> Result<(), u32> {
    if !sets_right(&o.words, n, root, o.count) {
        return Err(BAD_CUT);
    }
    if !shown::none_overcharged(table, &o.words, o.count) {
        return Err(OVERCHARGED);
    }
    if shown::amounts(&o.words, o.count) != u64::from(o.total) {
        return Err(WRONG_AMOUNTS);
    }
    Ok(())
}

// "Answers: in order .. 14, 21 not a feed tree, 22 wrong total", then those of the cuts. The table holds the weights of
// the remaining arcs.
pub fn check(table: &[u32; CELLS], o: &Certificate, n: u32, root: u32) -> Result<(), u32> {
    if o.is_short(n) {
        return Err(BUFFER_SHORT);
    }
    if !is_tree(table, &o.parents, n, root) {
        return Err(NOT_A_TREE);
    }
    if shown::tree_total(table, &o.parents, n, root) != o.total {
        return Err(WRONG_TOTAL);
    }
    check_cuts(table, o, n, root)
}
