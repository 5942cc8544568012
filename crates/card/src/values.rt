// What a start is handed, brought into its range.
ghost use Rattle.std.specs.Prelude.{◌≡◌, ◌&&◌, ◌∷◌, map, length, Ok, nat_le};
ghost use Rattle.semantics.specs.declared.refusal.Refusal.TheVariants.{ArgumentOutOfRange};
ghost use Rattle.semantics.specs.Cards.{numbers_in_range, taken};
ghost use Rattle.semantics.specs.Form.{must};
ghost use Rattle.semantics.specs.Hosts.{in_range};
ghost use Rattle.semantics.specs.Items.{items_of};
ghost use Rattle.semantics.specs.NewRows.{classes_present};
ghost use Rattle.semantics.specs.Reading.{so};
ghost use Rattle.semantics.specs.Runs.{kind_of};
ghost use Rattle.verifier.specs.Answers.{answered};
ghost use Rattle.card.specs.Openings.{opening_of, opened};

use crate::numbers::{Handed, all_small};
use classes::table::ClassTable;
use semantics::array_vec::ArrayVec;
use semantics::call::Offered;
use semantics::refusal::Refusal;
use semantics::value::Value;
use verifier::rules::operands_present;

// The receiver, name and arguments of a start.
#[derive(Clone, Copy)]
pub struct Opening {
    pub receiver: Value,
    pub name: u8,
    pub arguments: ArrayVec<Value, 7>,
}

// A value: its class, and a number of 32 bits.
impl Handed for Offered {
    type Small = Value;

    ghost allowed = { λ offered. nat_le offered.class 63 && in_range offered.number };

    ghost taken = { taken };

    fn small(&self) -> Result<Value, Refusal> {
        let class = self.class.small()?;
        let number = i32::try_from(self.number).map_err(|_| Refusal::ArgumentOutOfRange)?;
        Ok(Value { class, number })
    }
}

impl Opening {
    // By the numbers of a call.
    pub fn of(receiver: Offered, name: u32, arguments: &[Offered]) -> Result<Opening, Refusal>
        ensures { answered opening_of result ≡ opened receiver name arguments.now }
    {
        let receiver = receiver.small()?;
        Ok(Opening {
            receiver,
            name: u8::try_from(name).map_err(|_| Refusal::ArgumentOutOfRange)?,
            arguments: all_small(arguments, receiver)?,
        })
    }

    // Whether the classes of the values are there; the receiver has the place 0.
    pub fn present<T: ClassTable>(&self, table: &T) -> Result<(), Refusal>
        ensures { result ≡ classes_present (T.listed table.now) 0 (map kind_of (self.now.receiver ∷ items_of self.now.arguments)) }
    {
        operands_present(table, &self.receiver, &self.arguments)
    }
}
