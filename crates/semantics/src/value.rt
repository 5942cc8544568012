// Values, questions to a host, and its answers.
use crate::array_vec::ArrayVec;

// The classes of truth values and of numbers.
pub const BOOL: u8 = 1;

pub const INT: u8 = 2;

#[derive(Clone, Copy, PartialEq, Debug)]
pub struct Value {
    pub class: u8,
    pub number: i32,
}

// What a native method asks: the name and class of its row, the class wanted of the answer, receiver and arguments.
#[derive(Clone, Copy)]
pub struct Question {
    pub name: u8,
    pub class: u8,
    pub wanted: u8,
    pub receiver: Value,
    pub arguments: ArrayVec<Value, 7>,
}

// Why a host has no answer.
#[derive(Clone, Copy, PartialEq, Debug)]
pub enum Cause {
    NameUnknown = 1,
    ArgumentCount = 2,
    WantedClass = 3,
    CellNumber = 4,
    // A result out of range, or a divisor of 0.
    Range = 5,
    ScriptUsedUp = 6,
    NameDiffers = 7,
}

// A host's answer: a value, or why there is none.
pub type Answer = Result<Value, Cause>;
