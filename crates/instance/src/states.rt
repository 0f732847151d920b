// The state of an arc or an edge; specs/States.antt says what each means. The tables that a look fills hold its number.
ghost use Rattle.std.specs.Prelude.{◌≡◌};
ghost use Rattle.instance.specs.StateNumbers.{state_number};

#[derive(Clone, Copy, Debug, PartialEq, Eq)]
pub enum State {
    // "0 not a link"
    Absent = 0,
    // "1 closed"
    Excluded = 1,
    // "2 open"
    Optional = 2,
    // "3 sure"
    Mandatory = 3,
}

impl From<State> for u8 {
    ghost from_gives = { λ s k. k ≡ state_number s };

    fn from(state: State) -> u8 {
        state as u8
    }
}

// The numbers of those that are compared with a state from a table.
pub const EXCLUDED: u8 = 1;

pub const OPTIONAL: u8 = 2;
