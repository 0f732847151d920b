// Who set the mark of a link: "the card, or the recorded press (its place among those standing, from 1), the latest
// that names the link", by the log, which is kept from the card and the calls' arguments alone. The records that came
// on the card lie under the presses, so their places come first: "records of a card .. are the card's until taken
// back".
use reference::call::{Call, Kind};
use reference::history::Record;
use reference::log::Log;
use reference::shown;

// Whether an accepted press names an arc: a group its links alone, which are all that the log holds of its set.
fn press_names(c: Call, tail: u32, head: u32) -> bool {
    if c.kind == Kind::Budget || c.first != tail {
        return false;
    }
    if c.kind.is_group() {
        return shown::holds(c.second, head);
    }
    c.second == head
}

fn record_names(r: &Record, tail: u32, head: u32) -> bool {
    r.names(head) && r.first == tail
}

// The place of the latest of all that names an arc, the card's records first, from 1; 0 for the card.
pub fn place(log: &Log, tail: u32, head: u32) -> u32 {
    let record = (1u32..)
        .zip(log.below.recorded())
        .filter(|(_, r)| record_names(r, tail, head))
        .last();
    let press = (1u32..)
        .zip(log.entries())
        .filter(|(_, c)| press_names(**c, tail, head))
        .last();
    match (record, press) {
        (_, Some((k, _))) => log.below.count.wrapping_add(k),
        (Some((k, _)), None) => k,
        (None, None) => 0,
    }
}

// What stands at a place.
#[derive(Clone, Copy, PartialEq, Eq)]
pub enum Setter {
    Card,
    Record,
    Press,
    Group,
}

impl Setter {
    // The number that it is counted by, from 0.
    pub fn number(self) -> u32 {
        match self {
            Setter::Card => 0,
            Setter::Record => 1,
            Setter::Press => 2,
            Setter::Group => 3,
        }
    }
}

pub fn setter_at(log: &Log, place: u32) -> Setter {
    let below = log.below.count;
    if place == 0 {
        return Setter::Card;
    }
    if place <= below {
        return Setter::Record;
    }
    match log.entries().get((place - below - 1) as usize) {
        Some(c) if c.kind.is_group() => Setter::Group,
        _ => Setter::Press,
    }
}
