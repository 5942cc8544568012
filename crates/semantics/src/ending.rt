// How a go ends, and what it tells.
use crate::misfit::Misfit;
use crate::value::{Cause, Value};

// Why a run is broken off.
#[derive(Clone, Copy)]
pub enum Break {
    // A test of the check does not hold of the values.
    Misfit(Misfit),
    // A host's answer is outside the wanted class.
    AnswerClass,
}

#[derive(Clone, Copy)]
pub enum Ending {
    Returned(Value),
    NoAnswer(Cause),
    FramesFull,
    BrokenOff(Break),
    StepsTaken,
}

// The ending of a go, its steps, and the row and point of the operation that ended it; of the next one where the steps were taken.
#[derive(Clone, Copy)]
pub struct End {
    pub ending: Ending,
    pub steps: usize,
    pub row: usize,
    pub point: usize,
}

// The number and operand that a break tells. Both are plain, since they go outside as they are.
#[derive(Clone, Copy)]
pub struct BreakTold {
    pub number: u8,
    pub operand: usize,
}
