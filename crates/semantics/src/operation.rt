// Operations and their operands.
use crate::array_vec::ArrayVec;

#[derive(Clone, Copy)]
pub enum Operand {
    Local(u8),
    Temporary(u8),
    Constant(i32),
}

// Where the result of an invocation is put.
#[derive(Clone, Copy)]
pub enum Destination {
    Local(u8),
    Temporary(u8),
}

#[derive(Clone, Copy)]
pub enum Operation {
    Return(Operand),
    Jump(u8),
    JumpIf(Operand, u8),
    JumpList(Operand, ArrayVec<u8, 8>),
    Invoke {
        into: Destination,
        receiver: Operand,
        name: u8,
        arguments: ArrayVec<Operand, 7>,
    },
}
