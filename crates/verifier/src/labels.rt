// The labels that an operation names, and their rows.
ghost use Rattle.std.specs.Prelude.{◌≡◌, ◌≤◌, map};
ghost use Rattle.semantics.specs.Items.{items_of};
ghost use Rattle.semantics.specs.Methods.{label_of, op_of};
ghost use Rattle.semantics.specs.Tests.{label_row, named_labels, first_label, cells_fit};

use classes::rows::{Cell, row_fits};
use classes::table::ClassTable;
use semantics::array_vec::ArrayVec;
use semantics::demand::demand;
use semantics::method::Label;
use semantics::misfit::Misfit;
use semantics::operation::Operation;

// The row of the label of that number; an empty row where there is none.
fn label_row(labels: &[Label], label: u8) -> ArrayVec<u8, 8>
    ensures { items_of result ≡ label_row (map label_of labels.now) label }
{
    let label = labels.get(label as usize);
    label.map_or_else(|| ArrayVec::new(0), |label| label.row)
}

pub fn named_labels(operation: &Operation) -> ArrayVec<u8, 8>
    ensures { items_of result ≡ named_labels (op_of operation.now) }
{
    match operation {
        Operation::Jump(label) | Operation::JumpIf(_, label) => ArrayVec::repeat(*label, 1),
        Operation::JumpList(_, labels) => *labels,
        _ => ArrayVec::new(0),
    }
}

// The operand that the first of the named labels is.
fn first_label(operation: &Operation) -> usize
    ensures value { result ≡ first_label (op_of operation.now) }
    ensures bound { result ≤ 1 }
{
    match operation {
        Operation::JumpIf(..) | Operation::JumpList(..) => 1,
        _ => 0,
    }
}

// A row of cells against the rows of the labels that the operation names.
pub fn named_fit<T: ClassTable, C: Cell>(
    table: &T,
    labels: &[Label],
    row: &[C],
    operation: &Operation,
) -> Result<(), Misfit>
    ensures { result ≡ cells_fit (T.listed table.now) C.Cell.kind (map label_of labels.now) row.now (first_label (op_of operation.now)) (named_labels (op_of operation.now)) }
{
    let first = first_label(operation);
    let named = named_labels(operation);
    for (i, label) in named.as_slice().iter().enumerate() {
        let wanted = label_row(labels, *label);
        demand(
            row_fits(table, row, wanted.as_slice()),
            Misfit::Row { operand: first + i },
        )?;
    }
    Ok(())
}
