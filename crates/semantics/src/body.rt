// What is behind a method row: a host's native method, or code.
ghost use Rattle.std.specs.Prelude.{◌≤◌};

use crate::array_vec::ArrayVec;
use crate::method::Label;
use crate::operation::Operation;

#[derive(Clone, Copy)]
pub struct Code {
    pub temporaries: u8,
    pub labels: ArrayVec<Label, 16>,
    pub points: ArrayVec<Operation, 64>,
    ghost few: { temporaries ≤ 8 },
}

// An enum of its own, since the `None` of an `Option` would not say that a row is native.
#[derive(Clone, Copy)]
pub enum Body {
    Native,
    Coded(Code),
}
