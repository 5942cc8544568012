// The rules for a new method row.
ghost use Rattle.std.specs.Prelude.{◌≡◌, ◌+◌, ◌^◌, ◌<◌, not, ◌&&◌, ◌∷◌, ◌++◌, map, length};
ghost use Rattle.semantics.specs.declared.refusal.Refusal.TheVariants.{ClassAbsent, NameTaken};
ghost use Rattle.semantics.specs.Entries.{entry_of, entry_in};
ghost use Rattle.semantics.specs.Form.{must};
ghost use Rattle.semantics.specs.Items.{items_of};
ghost use Rattle.semantics.specs.Methods.{method_of};
ghost use Rattle.semantics.specs.NewRows.{classes_present, entry_classes, row_classes, taken, same_signature, clashes, agrees, entry_rules, room_for};
ghost use Rattle.semantics.specs.Reading.{so};
ghost use Rattle.semantics.specs.Tree.{present};

use crate::env::Env;
use classes::rows::Cell;
use classes::table::ClassTable;
use semantics::array_vec::ArrayVec;
use semantics::demand::demand;
use semantics::entry::Entry;
use semantics::method::Method;
use semantics::refusal::{Capacity, Refusal};

pub const MAX_ROWS: usize = 64;

const MAX_POINTS: usize = 1024;

pub fn present<T: ClassTable>(table: &T, place: usize, class: u8) -> Result<(), Refusal>
    ensures { result ≡ must (present (T.listed table.now) class) (ClassAbsent place) }
{
    demand(class < table.count(), Refusal::ClassAbsent { place })
}

// The class of each cell, of which the first has the place `first`.
fn all_present<T: ClassTable, C: Cell>(table: &T, first: usize, cells: &[C]) -> Result<(), Refusal>
    // The place of an absent class is told, so it has to be a number.
    requires { first + length cells.now < 2 ^ 64 }
    ensures { result ≡ classes_present (T.listed table.now) first (map C.Cell.kind cells.now) }
{
    for (i, cell) in cells.iter().enumerate() {
        present(table, first + i, cell.class())?;
    }
    Ok(())
}

// The class of a receiver, which has the place 0, and of each argument, in the places behind it.
pub fn operands_present<T: ClassTable, C: Cell + Copy>(
    table: &T,
    receiver: &C,
    arguments: &ArrayVec<C, 7>,
) -> Result<(), Refusal>
    ensures { result ≡ classes_present (T.listed table.now) 0 (C.Cell.kind receiver.now ∷ map C.Cell.kind (items_of arguments.now)) }
{
    present(table, 0, receiver.class())?;
    all_present(table, 1, arguments.as_slice())
}

// The classes that a signature names.
fn signature_present<T: ClassTable>(table: &T, entry: &Entry) -> Result<(), Refusal>
    ensures { result ≡ classes_present (T.listed table.now) 0 (entry_classes (entry_of entry.now)) }
{
    operands_present(table, &entry.class, &entry.arguments)?;
    present(table, 1 + entry.arguments.len(), entry.result)
}

// The classes of the rows of a method's labels, which have the places behind those of its signature.
fn rows_present<T: ClassTable>(table: &T, method: &Method) -> Result<(), Refusal>
    ensures { result ≡ classes_present (T.listed table.now) (2 + length (items_of method.now.arguments)) (row_classes (method_of method.now).labels) }
{
    // Not a `try_fold`: its closure would have to ask, as `all_present` does, that the place be a number.
    let mut place = 2 + method.arguments.len();
    for label in method.labels.as_slice() {
        all_present(table, place, label.row.as_slice())?;
        place += label.row.len();
    }
    Ok(())
}

// Not a derived `==`: an `ArrayVec` has none, since what stands behind its items means nothing.
fn same_signature(entry: &Entry, other: &Entry) -> bool
    ensures { result ≡ same_signature (entry_of entry.now) (entry_of other.now) }
{
    entry.arguments.as_slice() == other.arguments.as_slice() && entry.result == other.result
}

// Whether the other row has the entry's name on a class above or below, and another signature.
fn clashes<T: ClassTable>(table: &T, entry: &Entry, other: &Entry) -> bool
    ensures { result ≡ clashes (T.listed table.now) (entry_of entry.now) (entry_of other.now) }
{
    let in_line = table.fits(other.class, entry.class) || table.fits(entry.class, other.class);
    other.name == entry.name && in_line && !same_signature(other, entry)
}

// What a lookup and the check know of the method. A `From` would be no shorter, and hide which of the two is meant at a call.
pub fn entry_in(method: &Method) -> Entry
    ensures { entry_of result ≡ entry_in (method_of method.now) }
{
    Entry {
        class: method.class,
        name: method.name,
        arguments: method.arguments,
        result: method.result,
    }
}

impl<T: ClassTable> Env<'_, T> {
    fn is_taken(&self, entry: &Entry) -> bool
        ensures { result ≡ taken (entry_of entry.now) (map entry_of self.now.entries.now) }
    {
        self.entries.iter().any(|other| other.name == entry.name && other.class == entry.class)
    }

    fn agrees(&self, entry: &Entry) -> Result<(), Refusal>
        ensures { result ≡ agrees (T.listed self.now.table.now) (entry_of entry.now) 0 (map entry_of self.now.entries.now) }
    {
        let mut others = self.entries.iter();
        match others.position(|other| clashes(self.table, entry, other)) {
            Some(row) => Err(Refusal::SignatureDiffers { row }),
            None => Ok(()),
        }
    }

    // The rules that tie a new row to the others.
    fn goes_with(&self, entry: &Entry) -> Result<(), Refusal>
        ensures { result ≡ so (must (not (taken (entry_of entry.now) (map entry_of self.now.entries.now))) NameTaken) (λ _. agrees (T.listed self.now.table.now) (entry_of entry.now) 0 (map entry_of self.now.entries.now)) }
    {
        if self.is_taken(entry) {
            return Err(Refusal::NameTaken);
        }
        self.agrees(entry)
    }

    // Whether the row may be added, where its signature is all that names classes.
    pub fn entry_rules(&self, entry: &Entry) -> Result<(), Refusal>
        ensures { result ≡ entry_rules (T.listed self.now.table.now) (map entry_of self.now.entries.now) (entry_of entry.now) (entry_classes (entry_of entry.now)) }
    {
        signature_present(self.table, entry)?;
        self.goes_with(entry)
    }

    // Whether the method's row may be added, where the rows of its labels name classes too.
    pub fn method_rules(&self, method: &Method) -> Result<(), Refusal>
        ensures { result ≡ entry_rules (T.listed self.now.table.now) (map entry_of self.now.entries.now) (entry_in (method_of method.now)) (entry_classes (entry_in (method_of method.now)) ++ row_classes (method_of method.now).labels) }
    {
        let entry = entry_in(method);
        signature_present(self.table, &entry)?;
        rows_present(self.table, method)?;
        self.goes_with(&entry)
    }
}

// Whether there is room for one row more, and for its points beside those that are there.
pub fn room_for(rows: usize, points: usize, more: usize) -> Result<(), Refusal>
    ensures { result ≡ room_for rows points more }
{
    if rows >= MAX_ROWS {
        return Err(Refusal::Full {
            what: Capacity::Rows,
        });
    }
    if points > MAX_POINTS || more > MAX_POINTS - points {
        return Err(Refusal::Full {
            what: Capacity::Points,
        });
    }
    Ok(())
}
