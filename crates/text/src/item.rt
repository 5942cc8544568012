// What a list in a value is made of.
ghost use Rattle.std.specs.Prelude.{◌≡◌};
ghost use Rattle.semantics.specs.Pieces.{Piece};
ghost use Rattle.semantics.specs.Values.{Said, number_at, operand_at, destination_at};
ghost use Rattle.text.specs.Parts.{piece_of};

use crate::number::{MAX_NUMBER, constant, number};
use crate::part::Part;
use semantics::operation::{Destination, Operand};
use semantics::refusal::Fault;

pub trait Item: Copy {
    // What a part says.
    ghost says: { Piece → Said Self };

    fn read(part: Part<'_>) -> Result<Self, Fault>
        ensures { result ≡ says (piece_of part.entry) };
}

// A class or a label.
impl Item for u8 {
    ghost says = { number_at 63 };

    fn read(part: Part<'_>) -> Result<u8, Fault> {
        number(part, MAX_NUMBER)
    }
}

// Two arms stand twice, as the enums have them: one enum would let a constant be a destination, and one in the other would nest each match.
impl Item for Operand {
    ghost says = { operand_at };

    fn read(part: Part<'_>) -> Result<Operand, Fault> {
        let (sign, behind) = part.split_first().ok_or(Fault::Malformed)?;
        match sign {
            b'l' => Ok(Operand::Local(number(behind, MAX_NUMBER)?)),
            b't' => Ok(Operand::Temporary(number(behind, MAX_NUMBER)?)),
            b'#' => Ok(Operand::Constant(constant(behind)?)),
            _ => Err(Fault::Malformed),
        }
    }
}

impl Item for Destination {
    ghost says = { destination_at };

    fn read(part: Part<'_>) -> Result<Destination, Fault> {
        let (sign, behind) = part.split_first().ok_or(Fault::Malformed)?;
        match sign {
            b'l' => Ok(Destination::Local(number(behind, MAX_NUMBER)?)),
            b't' => Ok(Destination::Temporary(number(behind, MAX_NUMBER)?)),
            _ => Err(Fault::Malformed),
        }
    }
}
