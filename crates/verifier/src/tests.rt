// The tests of an operation on the classes of its operands.
ghost use Rattle.std.specs.Prelude.{◌≡◌, ◌<◌, ◌∷◌, map, length, IfOk, Ok, slice_index};
ghost use Rattle.semantics.specs.Entries.{entry_of, found};
ghost use Rattle.semantics.specs.Items.{items_of};
ghost use Rattle.semantics.specs.Methods.{method_of, op_of};
ghost use Rattle.semantics.specs.Tests.{then, demand, arguments_fit, taking, callee, may_hold, put_into, locals_of, own_tests};
ghost use Rattle.semantics.specs.Tree.{fits};
ghost use Rattle.verifier.specs.Answers.{answered};
ghost use Rattle.verifier.specs.Typings.{class_in};

use crate::env::Env;
use classes::table::ClassTable;
use semantics::array_vec::ArrayVec;
use semantics::demand::demand;
use semantics::entry::Entry;
use semantics::method::Method;
use semantics::misfit::Misfit;
use semantics::operation::{Destination, Operand, Operation};
use semantics::value::{BOOL, INT};

// The operands of an invocation that its name and its first argument are.
const NAME: usize = 2;

const FIRST_ARGUMENT: usize = 3;

// Class and arguments come apart, also in `may_hold`: the check has them in a `Method`, a run in an `Entry`.
// The class that a local is declared with, in a method of a class with arguments of these classes: the receiver's, then those of the arguments.
fn declared_class(class: u8, arguments: &ArrayVec<u8, 7>, local: u8) -> u8
    ensures { result ≡ slice_index (class ∷ items_of arguments.now) local }
{
    if local == 0 {
        return class;
    }
    arguments.get_or((local - 1) as usize, 0)
}

// The classes of arguments against those that a signature declares.
fn arguments_fit<T: ClassTable>(table: &T, given: &[u8], declared: &[u8]) -> Result<(), Misfit>
    ensures { result ≡ arguments_fit (T.listed table.now) 3 given.now declared.now }
{
    let mut pairs = given.iter().zip(declared);
    match pairs.position(|(class, declared)| !table.fits(*class, *declared)) {
        Some(i) => Err(Misfit::Argument {
            operand: FIRST_ARGUMENT + i,
        }),
        None => Ok(()),
    }
}

// Whether a row takes arguments of the given classes: their count, then each of them.
pub fn taking<T: ClassTable>(table: &T, entry: &Entry, given: &[u8]) -> Result<(), Misfit>
    ensures { result ≡ answered (λ _. tt) (taking (T.listed table.now) given.now (found 0 (entry_of entry.now))) }
{
    let declared = entry.arguments;
    demand(
        given.len() == declared.len(),
        Misfit::Argument { operand: NAME },
    )?;
    arguments_fit(table, given, declared.as_slice())
}

// Whether the place may hold a result of that class, in a method of a class with arguments of these classes.
pub fn may_hold<T: ClassTable>(
    table: &T,
    class: u8,
    arguments: &ArrayVec<u8, 7>,
    into: Destination,
    res: u8,
) -> Result<(), Misfit>
    ensures { result ≡ may_hold (T.listed table.now) (class ∷ items_of arguments.now) into res }
{
    match into {
        Destination::Local(n) => demand(
            table.fits(res, declared_class(class, arguments, n)),
            Misfit::ResultClass,
        ),
        Destination::Temporary(_) => Ok(()),
    }
}

// What the operands of a method are where its temporaries have the classes of `row`.
#[derive(Drop)]
struct Typing<'a> {
    method: &'a Method,
    row: &'a ArrayVec<u8, 8>,
}

impl Typing<'_> {
    fn class_of(&self, operand: Operand) -> u8
        ensures { result ≡ class_in self.now operand }
    {
        match operand {
            Operand::Local(n) => declared_class(self.method.class, &self.method.arguments, n),
            Operand::Temporary(n) => self.row.get_or(n as usize, 0),
            Operand::Constant(_) => INT,
        }
    }

    fn classes_of(&self, operands: &ArrayVec<Operand, 7>) -> ArrayVec<u8, 7>
        ensures { items_of result ≡ map (class_in self.now) (items_of operands.now) }
    {
        // `ArrayVec` has no `map`: it would have to ask that its closure may be called, and no public function asks anything.
        let mut classes = ArrayVec::new(0);
        for operand in operands.as_slice() {
            let _ = classes.push(self.class_of(*operand));
        }
        classes
    }

    // The row as it is, where the operand's class fits the wanted one.
    fn tested<T: ClassTable>(
        &self,
        table: &T,
        operand: Operand,
        wanted: u8,
        misfit: Misfit,
    ) -> Result<ArrayVec<u8, 8>, Misfit>
        ensures { answered items_of result ≡ then (demand (fits (T.listed table.now) (class_in self.now operand) wanted) misfit) (λ _. Ok (items_of self.now.row.now)) }
    {
        demand(table.fits(self.class_of(operand), wanted), misfit)?;
        Ok(*self.row)
    }

    // The row after a result of that class was put into its place.
    fn put_into<T: ClassTable>(
        &self,
        table: &T,
        into: Destination,
        class: u8,
    ) -> Result<ArrayVec<u8, 8>, Misfit>
        ensures { answered items_of result ≡ put_into (T.listed table.now) (locals_of (method_of self.now.method.now)) (items_of self.now.row.now) into class }
    {
        may_hold(
            table,
            self.method.class,
            &self.method.arguments,
            into,
            class,
        )?;
        let mut after = *self.row;
        if let Destination::Temporary(n) = into {
            after.set(n as usize, class);
        }
        Ok(after)
    }
}

impl<T: ClassTable> Env<'_, T> {
    // The number of the row that a name means on a receiver of a class, with arguments of the given classes.
    pub fn callee(&self, class: u8, name: u8, given: &[u8]) -> Result<usize, Misfit>
        ensures value { result ≡ answered (λ f. f.number) (callee (T.listed self.now.table.now) (map entry_of self.now.entries.now) class name given.now) }
        ensures within { IfOk result (λ k. k < length self.now.entries.now) }
    {
        let row = self.lookup(class, name).ok_or(Misfit::NoRow)?;
        taking(self.table, &self.entries[row], given)?;
        Ok(row)
    }

    // The result class of the row that an invocation calls; its operands come apart, as the operation's own fields.
    fn result_class(
        &self,
        typing: &Typing<'_>,
        receiver: Operand,
        name: u8,
        arguments: &ArrayVec<Operand, 7>,
    ) -> Result<u8, Misfit>
        ensures { result ≡ then (callee (T.listed self.now.table.now) (map entry_of self.now.entries.now) (class_in typing.now receiver) name (map (class_in typing.now) (items_of arguments.now))) (λ f. Ok f.entry.result) }
    {
        let given = typing.classes_of(arguments);
        let class = typing.class_of(receiver);
        let called = self.callee(class, name, given.as_slice())?;
        Ok(self.entries[called].result)
    }

    // The method, the row and the operation stay apart: each caller walks over one of them and holds the others.
    // An operation's own tests where the temporaries have the classes of `row`, and the row behind it.
    pub fn own_tests(
        &self,
        method: &Method,
        row: &ArrayVec<u8, 8>,
        operation: &Operation,
    ) -> Result<ArrayVec<u8, 8>, Misfit>
        ensures { answered items_of result ≡ own_tests (T.listed self.now.table.now) (map entry_of self.now.entries.now) (method_of method.now) (items_of row.now) (op_of operation.now) }
    {
        let typing = Typing { method, row };
        match operation {
            Operation::Return(value) => {
                typing.tested(self.table, *value, method.result, Misfit::ResultClass)
            }
            Operation::Jump(_) => Ok(*row),
            Operation::JumpIf(condition, _) => {
                typing.tested(self.table, *condition, BOOL, Misfit::Condition)
            }
            Operation::JumpList(selector, _) => {
                typing.tested(self.table, *selector, INT, Misfit::Condition)
            }
            Operation::Invoke {
                into,
                receiver,
                name,
                arguments,
            } => {
                let class = self.result_class(&typing, *receiver, *name, arguments)?;
                typing.put_into(self.table, *into, class)
            }
        }
    }
}
