// Operations: a letter and its operands, parted by blanks.
ghost use Rattle.std.specs.Prelude.{◌≡◌, length};
ghost use Rattle.semantics.specs.Methods.{op_of};
ghost use Rattle.semantics.specs.Values.{mapped, jump_if_of, jump_list_of, invoke_of, operation_at};
ghost use Rattle.text.specs.Parts.{piece_of, parts_left, only};

use crate::item::Item;
use crate::label::MAX_ARGUMENTS;
use crate::list::{both, list};
use crate::number::{MAX_NAME, number};
use crate::part::{Part, Parts};
use semantics::operation::{Destination, Operand, Operation};
use semantics::refusal::Fault;

const MAX_LABELS: usize = 8;

// What the only part says.
fn only<T: Item>(mut parts: Parts<'_>) -> Result<T, Fault>
    ensures { result ≡ only T.says (parts_left parts.entry) }
{
    let item = T::read(parts.next_part()?);
    parts.end()?;
    item
}

fn read_jump_if(mut parts: Parts<'_>) -> Result<Operation, Fault>
    ensures { mapped op_of result ≡ jump_if_of (parts_left parts.entry) }
{
    let condition = Operand::read(parts.next_part()?);
    let label = u8::read(parts.next_part()?);
    parts.end()?;
    let (condition, label) = both(condition, label)?;
    Ok(Operation::JumpIf(condition, label))
}

fn read_jump_list(mut parts: Parts<'_>) -> Result<Operation, Fault>
    ensures { mapped op_of result ≡ jump_list_of (parts_left parts.entry) }
{
    let selector = Operand::read(parts.next_part()?);
    let count = parts.len();
    if count == 0 || count > MAX_LABELS {
        return Err(Fault::Malformed);
    }
    let labels = list(parts, 0);
    let (selector, labels) = both(selector, labels)?;
    Ok(Operation::JumpList(selector, labels))
}

fn read_invoke(mut parts: Parts<'_>) -> Result<Operation, Fault>
    ensures { mapped op_of result ≡ invoke_of (parts_left parts.entry) }
{
    let into = Destination::read(parts.next_part()?);
    let receiver = Operand::read(parts.next_part()?);
    let name = number(parts.next_part()?, MAX_NAME);
    if parts.len() > MAX_ARGUMENTS {
        return Err(Fault::Malformed);
    }
    let arguments = list(parts, Operand::Constant(0));
    let (into, (receiver, (name, arguments))) = both(into, both(receiver, both(name, arguments)))?;
    Ok(Operation::Invoke {
        into,
        receiver,
        name,
        arguments,
    })
}

// The operation that the value of an op line says.
pub fn read_operation(value: Part<'_>) -> Result<Operation, Fault>
    ensures { mapped op_of result ≡ operation_at (piece_of value.entry) }
{
    let mut parts = Parts::new(value, b' ');
    match parts.next_part()?.bytes {
        [letter] => match *letter {
            b'R' => Ok(Operation::Return(only(parts)?)),
            b'J' => Ok(Operation::Jump(only(parts)?)),
            b'F' => read_jump_if(parts),
            b'L' => read_jump_list(parts),
            b'V' => read_invoke(parts),
            _ => Err(Fault::Malformed),
        },
        _ => Err(Fault::Malformed),
    }
}
