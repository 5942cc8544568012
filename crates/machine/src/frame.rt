// A frame: what it holds, and how it changes.
ghost use Rattle.std.specs.Prelude.{◌≡◌, ◌<◌, ◌∷◌, List, map, take};
ghost use Rattle.std.specs.Iterator.{Drains, IsFinite};
ghost use Rattle.semantics.specs.Items.{items_of};
ghost use Rattle.semantics.specs.Runs.{opened, moved_to, kind_of, operand_value, put_in};
ghost use Rattle.semantics.specs.Stores.{code_of};
ghost use Rattle.machine.specs.Frames.{frame_of};

use semantics::array_vec::ArrayVec;
use semantics::body::Code;
use semantics::operation::{Destination, Operand};
use semantics::value::{INT, Value};
use std::iter::once;

// What a temporary holds at first.
const ZERO: Value = Value {
    class: 0,
    number: 0,
};

// The items, at most N. The filler stands where no item does. Inlined with what collects operands, so that each list is filled in its place.
#[inline(always)]
#[tactic(auto, using(crate::proofs::Places::taken_more))]
fn gathered<T: Copy, I: Iterator<Item = T>, const N: usize>(filler: T, items: I) -> ArrayVec<T, N>
    requires can_next { I.can_next items × IsFinite (I.remaining items) }
    ensures { (xs : List T) × Drains I.next_gives items xs × (items_of result ≡ take N xs) }
{
    let mut list = ArrayVec::new(filler);
    for item in items {
        let _ = list.push(item);
    }
    list
}

// A method row, a point, locals and temporaries.
#[derive(Clone, Copy)]
pub struct Frame {
    pub row: usize,
    pub point: usize,
    pub locals: ArrayVec<Value, 8>,
    pub temporaries: ArrayVec<Value, 8>,
}

// What a method is called with: a receiver and arguments.
#[derive(Clone, Copy)]
pub(crate) struct Call {
    pub(crate) receiver: Value,
    pub(crate) arguments: ArrayVec<Value, 7>,
}

impl Call {
    // The classes of the arguments.
    #[inline(always)]
    pub(crate) fn kinds(&self) -> ArrayVec<u8, 7>
        ensures { items_of result ≡ map kind_of (items_of self.now.arguments) }
    {
        gathered(0, self.arguments.as_slice().iter().map(|value| value.class))
    }

    // The locals that a method begins with.
    fn locals(&self) -> ArrayVec<Value, 8>
        ensures { items_of result ≡ self.now.receiver ∷ items_of self.now.arguments }
    {
        let arguments = self.arguments.as_slice().iter().copied();
        gathered(ZERO, once(self.receiver).chain(arguments))
    }
}

impl Frame {
    // The first frame of a row: receiver and arguments, and temporaries of class 0 with number 0.
    pub(crate) fn opened(row: usize, code: &Code, call: &Call) -> Frame
        ensures { frame_of result ≡ opened row (code_of code.now) call.now.receiver (items_of call.now.arguments) }
    {
        Frame {
            row,
            point: 0,
            locals: call.locals(),
            temporaries: ArrayVec::repeat(ZERO, code.temporaries as usize),
        }
    }

    pub(crate) fn value(&self, operand: Operand) -> Value
        ensures { result ≡ operand_value (frame_of self.now) operand }
    {
        match operand {
            Operand::Local(n) => self.locals.get_or(n as usize, ZERO),
            Operand::Temporary(n) => self.temporaries.get_or(n as usize, ZERO),
            Operand::Constant(number) => Value { class: INT, number },
        }
    }

    #[inline(always)]
    fn values(&self, operands: &ArrayVec<Operand, 7>) -> ArrayVec<Value, 7>
        ensures { items_of result ≡ map (operand_value (frame_of self.now)) (items_of operands.now) }
    {
        let values = operands
            .as_slice()
            .iter()
            .map(|operand| self.value(*operand));
        gathered(ZERO, values)
    }

    // The call that an invocation makes.
    #[inline(always)]
    pub(crate) fn call(&self, receiver: Operand, arguments: &ArrayVec<Operand, 7>) -> Call
        ensures receiver { result.receiver ≡ operand_value (frame_of self.now) receiver }
        ensures arguments { items_of result.arguments ≡ map (operand_value (frame_of self.now)) (items_of arguments.now) }
    {
        Call {
            receiver: self.value(receiver),
            arguments: self.values(arguments),
        }
    }

    // Past the invocation, with its result in its place.
    pub(crate) fn put(&mut self, into: Destination, value: Value)
        requires { self.old.point < 64 }
        ensures { frame_of self.new ≡ put_in (frame_of self.old) into value }
    {
        match into {
            Destination::Local(n) => self.locals.set(n as usize, value),
            Destination::Temporary(n) => self.temporaries.set(n as usize, value),
        }
        self.point += 1;
    }

    pub(crate) fn move_to(&mut self, point: usize)
        ensures { frame_of self.new ≡ moved_to (frame_of self.old) point }
    {
        self.point = point;
    }
}
