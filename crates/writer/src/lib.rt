//! The only text of a method, written into a lent buffer.
#![tactic(auto)]

ghost use Rattle.std.specs.Prelude.{◌≡◌, ◌≤◌, length, take, IfOk, Ok};
ghost use Rattle.semantics.specs.Buffers.{filled, written};
ghost use Rattle.semantics.specs.Methods.{InRange, method_of};
ghost use Rattle.semantics.specs.Printing.{method_text};
ghost use Rattle.semantics.specs.Reading.{method_in};

use crate::output::Text;
use semantics::method::Method;
use semantics::refusal::Refusal;

mod lines;
mod operations;
mod output;

// Writes the text of a method into the buffer and answers its length; where the buffer is too short it stays as it was.
// The buffer is lent, since no call allocates.
pub fn write(method: &Method, buffer: &mut [u8]) -> Result<usize, Refusal>
    ensures answer { result ≡ written (method_text (method_of method.now)) buffer.old }
    ensures text { buffer.new ≡ filled (method_text (method_of method.now)) buffer.old }
    ensures bound { IfOk result (λ n. n ≤ length buffer.old) }
    // what is written from a method in range is read back as that method
    ensures back { IfOk result (λ n. InRange (method_of method.now) → method_in (take n buffer.new) ≡ Ok (method_of method.now)) }
{
    // over no bytes at all it only counts
    let needed = method.fill(&mut []);
    if buffer.len() < needed {
        return Err(Refusal::BufferTooShort { needed });
    }
    Ok(method.fill(buffer))
}
