// The texts of operands and operations.
ghost use Rattle.semantics.specs.Methods.{op_of};
ghost use Rattle.semantics.specs.Printing.{destination_text, op_text, operand_text};

use crate::output::{Output, Text};
use semantics::operation::{Destination, Operand, Operation};

const BLANK: u8 = b' ';

const LOCAL: u8 = b'l';

const TEMPORARY: u8 = b't';

const CONSTANT: u8 = b'#';

// Two arms stand twice, as the enums have them: one enum would let a constant be a destination, and one in the other would nest each match.
impl Text for Operand {
    ghost text = { operand_text };

    fn put(&self, out: &mut Output) {
        match self {
            Operand::Local(number) => out.marked(LOCAL, number),
            Operand::Temporary(number) => out.marked(TEMPORARY, number),
            Operand::Constant(value) => out.marked(CONSTANT, value),
        }
    }
}

impl Text for Destination {
    ghost text = { destination_text };

    fn put(&self, out: &mut Output) {
        match self {
            Destination::Local(number) => out.marked(LOCAL, number),
            Destination::Temporary(number) => out.marked(TEMPORARY, number),
        }
    }
}

impl Text for Operation {
    ghost text = { λ o. op_text (op_of o) };

    #[tactic(auto, using(crate::proofs::Putting::put_append, crate::proofs::Texts::joined_by_each))]
    fn put(&self, out: &mut Output) {
        match self {
            Operation::Return(value) => {
                out.byte(b'R');
                out.marked(BLANK, value);
            }
            Operation::Jump(label) => {
                out.byte(b'J');
                out.marked(BLANK, label);
            }
            Operation::JumpIf(condition, label) => {
                out.byte(b'F');
                out.marked(BLANK, condition);
                out.marked(BLANK, label);
            }
            Operation::JumpList(index, labels) => {
                out.byte(b'L');
                out.marked(BLANK, index);
                out.each(b" ", labels.as_slice(), b"");
            }
            Operation::Invoke {
                into,
                receiver,
                name,
                arguments,
            } => {
                out.byte(b'V');
                out.marked(BLANK, into);
                out.marked(BLANK, receiver);
                out.marked(BLANK, name);
                out.each(b" ", arguments.as_slice(), b"");
            }
        }
    }
}
