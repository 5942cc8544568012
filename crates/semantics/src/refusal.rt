// Why a call is refused, and where the fault lies.
ghost use Rattle.std.specs.Prelude.{◌≡◌, Some};
ghost use Rattle.semantics.specs.Refusals.{told, refusal_text};

use std::fmt;

#[derive(Clone, Copy)]
pub enum Layer {
    Text,
    Form,
    Card,
    Check,
    Run,
}

// What is full.
#[derive(Clone, Copy, PartialEq, Debug)]
pub enum Capacity {
    Classes,
    Depth,
    Rows,
    Points,
}

#[derive(Clone, Copy, PartialEq, Debug)]
pub enum Refusal {
    // A line out of order, over its count or unended.
    Line { at: usize },
    // A value that is malformed or has a wrong count of parts.
    Malformed { at: usize },
    // A number of a text that is out of range.
    OutOfRange { at: usize },
    // A number of a call that is out of range.
    ArgumentOutOfRange,
    // A label whose point does not rise or is not in the method.
    LabelPoint { label: usize },
    // A local, temporary or label that the method does not have.
    Absent { point: usize, operand: usize },
    // Code that runs on past its end, or behind a return or jump that no label leads past.
    OpenEnd { point: usize },
    BufferTooShort { needed: usize },
    ClassAbsent { place: usize },
    Full { what: Capacity },
    NameTaken,
    SignatureDiffers { row: usize },
    NoRow { point: usize },
    Argument { point: usize, operand: usize },
    ResultClass { point: usize },
    Condition { point: usize },
    RowMisfit { point: usize, operand: usize },
    Unreached { point: usize },
    RunInHand,
    NoRunInHand,
    NativeRow,
    NoSuchRow,
    // The two refusals of start that the check has too.
    StartNoRow,
    StartArgument { operand: usize },
}

// A fault within the value of one line.
#[derive(Clone, Copy)]
pub enum Fault {
    Malformed,
    OutOfRange { at: usize },
}

// What a refusal tells: its number, its layer and two places, 0 where a place is not used. The number and the places are plain, since they go outside as they are.
#[derive(Clone, Copy)]
pub struct Told {
    pub number: u8,
    pub layer: Layer,
    pub first: usize,
    pub second: usize,
}

const fn telling(number: u8, layer: Layer, first: usize, second: usize) -> Told
    ensures { result ≡ record { number = number; layer = layer; first = first; second = second } }
{
    Told {
        number,
        layer,
        first,
        second,
    }
}

impl Refusal {
    pub fn told(&self) -> Told
        ensures { result ≡ told self.now }
    {
        match *self {
            Refusal::Line { at } => telling(1, Layer::Text, at, 0),
            Refusal::Malformed { at } => telling(2, Layer::Text, at, 0),
            Refusal::OutOfRange { at } => telling(3, Layer::Text, at, 0),
            Refusal::ArgumentOutOfRange => telling(3, Layer::Form, 0, 0),
            Refusal::LabelPoint { label } => telling(4, Layer::Form, label, 0),
            Refusal::Absent { point, operand } => telling(5, Layer::Form, point, operand),
            Refusal::OpenEnd { point } => telling(6, Layer::Form, point, 0),
            Refusal::BufferTooShort { needed } => telling(7, Layer::Form, needed, 0),
            Refusal::ClassAbsent { place } => telling(8, Layer::Card, place, 0),
            Refusal::Full { what } => telling(9, Layer::Card, what as usize, 0),
            Refusal::NameTaken => telling(10, Layer::Card, 0, 0),
            Refusal::SignatureDiffers { row } => telling(11, Layer::Card, row, 0),
            Refusal::NoRow { point } => telling(12, Layer::Check, point, 1),
            Refusal::Argument { point, operand } => telling(13, Layer::Check, point, operand),
            Refusal::ResultClass { point } => telling(14, Layer::Check, point, 0),
            Refusal::Condition { point } => telling(15, Layer::Check, point, 0),
            Refusal::RowMisfit { point, operand } => telling(16, Layer::Check, point, operand),
            Refusal::Unreached { point } => telling(17, Layer::Check, point, 0),
            Refusal::RunInHand => telling(18, Layer::Run, 0, 0),
            Refusal::NoRunInHand => telling(19, Layer::Run, 0, 0),
            Refusal::NativeRow => telling(20, Layer::Run, 0, 0),
            Refusal::NoSuchRow => telling(22, Layer::Run, 0, 0),
            Refusal::StartNoRow => telling(12, Layer::Run, 0, 1),
            Refusal::StartArgument { operand } => telling(13, Layer::Run, 0, operand),
        }
    }
}

impl fmt::Display for Refusal {
    ghost output = { λ r. Some (refusal_text r) };

    fn fmt<W: fmt::Write>(&self, f: &mut fmt::Formatter<W>) -> fmt::Result {
        let told = self.told();
        let number = told.number;
        let first = told.first;
        let second = told.second;
        write!(f, "refused={number}:{first},{second}")
    }
}
