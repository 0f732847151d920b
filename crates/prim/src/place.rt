// Places of a list of n by n, row by row, with their rows and columns beside them: a loop over all places that goes on
// so divides nothing.
ghost use Rattle.std.specs.Prelude.{◌≡◌, ℕ, ◌+◌, ◌<◌};
ghost use Rattle.prim.specs.Place.{Placed};

#[derive(Clone, Copy)]
pub struct Place {
    pub row: u32,
    pub column: u32,
}

impl Place {
    // The first one.
    pub fn first() -> Place
        ensures { (result.row ≡ 0) × (result.column ≡ 0) }
    {
        Place { row: 0, column: 0 }
    }

    // The one after it.
    pub fn next(self, n: u32) -> Place
        requires { (self.row < n) × (self.column < n) }
        ensures { (k : ℕ) → Placed n k self.row self.column → Placed n (k + 1) result.row result.column }
    {
        if self.column + 1 == n {
            return Place {
                row: self.row + 1,
                column: 0,
            };
        }
        Place {
            row: self.row,
            column: self.column + 1,
        }
    }
}
