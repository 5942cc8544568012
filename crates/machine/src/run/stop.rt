// What a run in hand has come to where it goes no further.
ghost use Rattle.std.specs.Prelude.{◌≡◌};
ghost use Rattle.semantics.specs.Endings.{end};

use semantics::ending::{End, Ending};

// The ending, and the row and point of the operation that it is told at.
#[derive(Clone, Copy)]
pub(crate) struct Stop {
    pub(crate) ending: Ending,
    pub(crate) row: usize,
    pub(crate) point: usize,
}

impl Stop {
    // The end of a go of so many steps.
    pub(crate) fn end(self, steps: usize) -> End
        ensures { result ≡ end self.ending steps self.row self.point }
    {
        End {
            ending: self.ending,
            steps,
            row: self.row,
            point: self.point,
        }
    }
}
