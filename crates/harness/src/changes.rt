// A sound board with a change of any kind: those of damage.rt, then those of group_records.rt.
use crate::damage::Damaged;
use crate::{damage, group_records};
use board::Board;
use reference::random::Random;

// The changes: 29 are damage, 10 are none.
pub const KINDS: u32 = damage::KINDS + group_records::KINDS;

pub fn nth_change(b: Board, kind: u32, g: Random) -> Damaged {
    if kind < damage::KINDS {
        return damage::nth_damage(b, kind, g);
    }
    group_records::nth_damage(b, kind - damage::KINDS, g)
}
