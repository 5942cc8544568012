// The tests of a frame's operations on its values, and where they lead.
ghost use Rattle.std.specs.Prelude.{◌≡◌, ◌<◌, map, Ok};
ghost use Rattle.semantics.specs.declared.misfit.Misfit.TheVariants.{ResultClass, Condition};
ghost use Rattle.semantics.specs.Check.{label_at_point};
ghost use Rattle.semantics.specs.Items.{items_of};
ghost use Rattle.semantics.specs.Methods.{label_of, op_of};
ghost use Rattle.semantics.specs.Runs.{kind_of, operand_value, at_label, point_of, if_not_zero, chosen};
ghost use Rattle.semantics.specs.Tests.{then, demand, bool_class, int_class};
ghost use Rattle.semantics.specs.Tree.{fits};
ghost use Rattle.machine.specs.Frames.{frame_of, jump_tests};

use crate::frame::Frame;
use classes::rows::row_fits;
use classes::table::ClassTable;
use semantics::array_vec::ArrayVec;
use semantics::demand::demand;
use semantics::method::Label;
use semantics::misfit::Misfit;
use semantics::operation::{Operand, Operation};
use semantics::value::{BOOL, INT, Value};
use verifier::check::{FALLING_IN, row_at};
use verifier::labels::named_fit;

// A jump: the frame that stands at it, the labels of the frame's code, and the operation.
#[derive(Drop)]
pub(crate) struct Jump<'a> {
    pub(crate) frame: &'a Frame,
    pub(crate) labels: &'a [Label],
    pub(crate) operation: &'a Operation,
    ghost within: { frame.now.point < 64 },
}

// The point of a label; 0 where there is none.
fn label_point(labels: &[Label], label: u8) -> usize
    ensures { result ≡ point_of (map label_of labels.now) label }
{
    labels
        .get(label as usize)
        .map_or(0, |label| label.point as usize)
}

// The label of a list that a number chooses.
fn chosen(labels: &[u8], number: i32) -> Option<u8>
    ensures { result ≡ chosen labels.now number }
{
    let at = usize::try_from(number).ok()?;
    labels.get(at).copied()
}

impl Frame {
    // At a labelled point the temporaries have to fit the label's row.
    pub(crate) fn fits_label<T: ClassTable>(
        &self,
        table: &T,
        labels: &[Label],
    ) -> Result<(), Misfit>
        ensures { result ≡ at_label (T.listed table.now) (frame_of self.now).temporaries (label_at_point (map label_of labels.now) self.now.point) }
    {
        match row_at(labels, self.point) {
            Some(row) => demand(
                row_fits(table, self.temporaries.as_slice(), row.as_slice()),
                Misfit::Row {
                    operand: FALLING_IN,
                },
            ),
            None => Ok(()),
        }
    }

    // The value that a return gives, where it fits the method's result.
    pub(crate) fn returned<T: ClassTable>(
        &self,
        table: &T,
        res: u8,
        operand: Operand,
    ) -> Result<Value, Misfit>
        ensures { result ≡ then (demand (fits (T.listed table.now) (kind_of (operand_value (frame_of self.now) operand)) res) ResultClass) (λ _. Ok (operand_value (frame_of self.now) operand)) }
    {
        let value = self.value(operand);
        demand(table.fits(value.class, res), Misfit::ResultClass)?;
        Ok(value)
    }
}

impl Jump<'_> {
    // Where the jump goes, once the row fits every label that the operation names.
    pub(crate) fn to<T: ClassTable>(&self, table: &T, to: Option<u8>) -> Result<usize, Misfit>
        ensures { result ≡ jump_tests (T.listed table.now) (frame_of self.now.frame.now) (map label_of self.now.labels.now) (op_of self.now.operation.now) to }
    {
        let row = self.frame.temporaries.as_slice();
        named_fit(table, self.labels, row, self.operation)?;
        let next = self.frame.point + 1;
        Ok(to.map_or(next, |label| label_point(self.labels, label)))
    }

    // The same where a condition decides.
    pub(crate) fn if_true<T: ClassTable>(
        &self,
        table: &T,
        condition: Operand,
        label: u8,
    ) -> Result<usize, Misfit>
        ensures { result ≡ then (demand (fits (T.listed table.now) (kind_of (operand_value (frame_of self.now.frame.now) condition)) bool_class) Condition) (λ _. jump_tests (T.listed table.now) (frame_of self.now.frame.now) (map label_of self.now.labels.now) (op_of self.now.operation.now) (if_not_zero (operand_value (frame_of self.now.frame.now) condition).number label)) }
    {
        let value = self.frame.value(condition);
        demand(table.fits(value.class, BOOL), Misfit::Condition)?;
        self.to(table, (value.number != 0).then_some(label))
    }

    // The same where a number chooses from a list.
    pub(crate) fn by_list<T: ClassTable>(
        &self,
        table: &T,
        selector: Operand,
        list: &ArrayVec<u8, 8>,
    ) -> Result<usize, Misfit>
        ensures { result ≡ then (demand (fits (T.listed table.now) (kind_of (operand_value (frame_of self.now.frame.now) selector)) int_class) Condition) (λ _. jump_tests (T.listed table.now) (frame_of self.now.frame.now) (map label_of self.now.labels.now) (op_of self.now.operation.now) (chosen (items_of list.now) (operand_value (frame_of self.now.frame.now) selector).number)) }
    {
        let value = self.frame.value(selector);
        demand(table.fits(value.class, INT), Misfit::Condition)?;
        self.to(table, chosen(list.as_slice(), value.number))
    }
}
