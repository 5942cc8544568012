// A method as its text tells it.
ghost use Rattle.std.specs.Prelude.{◌≤◌};

use crate::array_vec::ArrayVec;
use crate::operation::Operation;

// The point that a label marks, and the classes that its temporaries have there.
#[derive(Clone, Copy)]
pub struct Label {
    pub point: u8,
    pub row: ArrayVec<u8, 8>,
}

// Flat, as its text is, line by line: what a row keeps of it is taken apart by `entry_in` and `code_in`. The limit of temporaries stands in `Code` too, since a type for the count would be unwrapped at each use.
#[derive(Clone, Copy)]
pub struct Method {
    pub class: u8,
    pub name: u8,
    pub arguments: ArrayVec<u8, 7>,
    pub result: u8,
    pub temporaries: u8,
    pub labels: ArrayVec<Label, 16>,
    pub code: ArrayVec<Operation, 64>,
    ghost few: { temporaries ≤ 8 },
}
