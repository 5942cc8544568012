// The check of a method: its points in rising order, with the row that is current.
ghost use Rattle.std.specs.Prelude.{◌≡◌, map};
ghost use Rattle.semantics.specs.Check.{misfit_at, label_at_point, arrived, carried, point_tests, check_of};
ghost use Rattle.semantics.specs.Entries.{entry_of};
ghost use Rattle.semantics.specs.Items.{items_of};
ghost use Rattle.semantics.specs.Methods.{label_of, method_of, op_of};
ghost use Rattle.verifier.specs.Answers.{answered, row_of};
ghost use Rattle.verifier.specs.Points.{labelled_row, tested_row, checked};

use crate::env::Env;
use crate::labels::named_fit;
use classes::rows::row_fits;
use classes::table::ClassTable;
use semantics::array_vec::ArrayVec;
use semantics::method::{Label, Method};
use semantics::misfit::Misfit;
use semantics::operation::Operation;
use semantics::refusal::Refusal;

// The operand number of a row that falls into a labelled point.
pub const FALLING_IN: usize = 15;

// A misfit at a point, as the check tells it.
pub fn misfit_at(point: usize, misfit: Misfit) -> Refusal
    ensures { result ≡ misfit_at point misfit }
{
    match misfit {
        Misfit::NoRow => Refusal::NoRow { point },
        Misfit::Argument { operand } => Refusal::Argument { point, operand },
        Misfit::ResultClass => Refusal::ResultClass { point },
        Misfit::Condition => Refusal::Condition { point },
        Misfit::Row { operand } => Refusal::RowMisfit { point, operand },
    }
}

// The row of the label of a point.
pub fn row_at(labels: &[Label], point: usize) -> Option<ArrayVec<u8, 8>>
    ensures { row_of result ≡ labelled_row (label_at_point (map label_of labels.now) point) }
{
    let label = labels.iter().find(|label| label.point as usize == point);
    label.map(|label| label.row)
}

// The row at a point: one that comes there has to fit the label's, which is then current. The machine's `fits_label` tests values, and hands on no row: one function for both would be no plainer.
fn arrived<T: ClassTable>(
    table: &T,
    labels: &[Label],
    point: usize,
    current: Option<ArrayVec<u8, 8>>,
) -> Result<Option<ArrayVec<u8, 8>>, Refusal>
    ensures { answered row_of result ≡ arrived (T.listed table.now) point (row_of current) (label_at_point (map label_of labels.now) point) }
{
    let Some(wanted) = row_at(labels, point) else {
        return Ok(current);
    };
    if let Some(row) = current {
        if !row_fits(table, row.as_slice(), wanted.as_slice()) {
            return Err(Refusal::RowMisfit {
                point,
                operand: FALLING_IN,
            });
        }
    }
    Ok(Some(wanted))
}

// The row behind an operation; none behind a return or a jump.
pub fn carried(operation: &Operation, row: ArrayVec<u8, 8>) -> Option<ArrayVec<u8, 8>>
    ensures { row_of result ≡ carried (op_of operation.now) (items_of row) }
{
    match operation {
        Operation::Return(_) | Operation::Jump(_) => None,
        _ => Some(row),
    }
}

impl<T: ClassTable> Env<'_, T> {
    // An operation's own tests, then its row against the labels that it names.
    fn point_tests(
        &self,
        method: &Method,
        row: &ArrayVec<u8, 8>,
        operation: &Operation,
    ) -> Result<ArrayVec<u8, 8>, Misfit>
        ensures { answered items_of result ≡ point_tests (T.listed self.now.table.now) (map entry_of self.now.entries.now) (method_of method.now) (items_of row.now) (op_of operation.now) }
    {
        let after = self.own_tests(method, row, operation)?;
        named_fit(
            self.table,
            method.labels.as_slice(),
            row.as_slice(),
            operation,
        )?;
        Ok(after)
    }

    // The tests of the operation at a point where the row is current, and the row behind it.
    fn tested(
        &self,
        method: &Method,
        point: usize,
        operation: &Operation,
        row: &ArrayVec<u8, 8>,
    ) -> Result<Option<ArrayVec<u8, 8>>, Refusal>
        ensures { answered row_of result ≡ tested_row (T.listed self.now.table.now) (map entry_of self.now.entries.now) (method_of method.now) point (op_of operation.now) (items_of row.now) }
    {
        let tested = self.point_tests(method, row, operation);
        let after = tested.map_err(|misfit| misfit_at(point, misfit))?;
        Ok(carried(operation, after))
    }

    // The operation at a point, and the row behind it.
    fn check_point(
        &self,
        method: &Method,
        point: usize,
        current: Option<ArrayVec<u8, 8>>,
        operation: &Operation,
    ) -> Result<Option<ArrayVec<u8, 8>>, Refusal>
        ensures { answered row_of result ≡ checked (T.listed self.now.table.now) (map entry_of self.now.entries.now) (method_of method.now) point (row_of current) (op_of operation.now) }
    {
        match arrived(self.table, method.labels.as_slice(), point, current)? {
            Some(row) => self.tested(method, point, operation, &row),
            None => Ok(None),
        }
    }

    // The first fault of a method whose row is among the entries, if there is one.
    pub fn check(&self, method: &Method) -> Result<(), Refusal>
        ensures { result ≡ check_of (T.listed self.now.table.now) (map entry_of self.now.entries.now) (method_of method.now) }
    {
        let mut current = Some(ArrayVec::repeat(0, method.temporaries as usize));
        let code = method.code.as_slice();
        for (point, operation) in code.iter().enumerate() {
            current = self.check_point(method, point, current, operation)?;
        }
        Ok(())
    }
}
