// What a run is made on: a card's classes and method rows, and what is behind each row.
ghost use Rattle.std.specs.Prelude.{◌≡◌};
ghost use Rattle.std.specs.Option.{option_copied};
ghost use Rattle.semantics.specs.Entries.{entry_of};
ghost use Rattle.semantics.specs.Runs.{destination_of};
ghost use Rattle.semantics.specs.Stores.{entry_at, body_at, code_at, op_at, code_of};
ghost use Rattle.machine.specs.Frames.{store_of, body_with};

use classes::table::ClassTable;
use semantics::array_vec::ArrayVec;
use semantics::body::{Body, Code};
use semantics::entry::Entry;
use semantics::operation::{Destination, Operation};
use verifier::env::Env;

// Two lists, as the rows of a card have them.
#[derive(Drop)]
pub struct Store<'a, T> {
    pub env: Env<'a, T>,
    pub bodies: &'a [Body],
}

// Where the invocation at a point puts its result; local 0 where none stands there.
fn destination_in(code: &Code, point: usize) -> Destination
    ensures { result ≡ destination_of (op_at (code_of code.now) point) }
{
    match code.points.as_slice().get(point) {
        Some(Operation::Invoke { into, .. }) => *into,
        _ => Destination::Local(0),
    }
}

// The rows of a card, by number. Nothing is behind a number that no row has.
impl<T: ClassTable> Store<'_, T> {
    pub(crate) fn entry_at(&self, row: usize) -> Entry
        ensures { entry_of result ≡ entry_at (store_of T.listed self.now) row }
    {
        match self.env.entries.get(row) {
            Some(entry) => *entry,
            // The entry of no row, made only here; card's filler is the same, and a shared one would be a public function for two uses.
            None => Entry {
                class: 0,
                name: 0,
                arguments: ArrayVec::new(0),
                result: 0,
            },
        }
    }

    // The code of a row, if it has any.
    pub(crate) fn code_at(&self, row: usize) -> Option<&Code>
        ensures { body_with (option_copied result) ≡ body_at (store_of T.listed self.now) row }
    {
        match self.bodies.get(row) {
            Some(Body::Coded(code)) => Some(code),
            _ => None,
        }
    }

    pub(crate) fn destination_at(&self, row: usize, point: usize) -> Destination
        ensures { result ≡ destination_of (op_at (code_at (store_of T.listed self.now) row) point) }
    {
        self.code_at(row)
            .map_or(Destination::Local(0), |code| destination_in(code, point))
    }
}
