// Why a list is refused, and by which line.
ghost use Rattle.std.specs.Prelude.{◌≡◌, ◌≤◌, None};
ghost use Rattle.std.specs.Option.{ForSome};

use instance::refusals::Refusal;

// The refusal of a list; of a faulty line also which it is, counted from 1, so that no other refusal names a line 0.
#[derive(Clone, Copy, Debug, PartialEq, Eq)]
pub struct Refused {
    pub refusal: Refusal,
    pub line: Option<usize>,
    ghost counted: { ForSome line (λ l. 1 ≤ l) },
}

// What is wrong with the numbers that come with a list, or with the buffer for it.
impl From<Refusal> for Refused {
    ghost from_gives = { λ r e. (e.refusal ≡ r) × (e.line ≡ None) };

    fn from(refusal: Refusal) -> Refused {
        Refused {
            refusal,
            line: None,
        }
    }
}
