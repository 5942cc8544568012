// One sweep over the points of a method.
ghost use Rattle.std.specs.Prelude.{◌≡◌, map};
ghost use Rattle.semantics.specs.Entries.{entry_of};
ghost use Rattle.semantics.specs.Fill.{comes, comes_to, falls_into, row_there, passed_over, sweep_of};
ghost use Rattle.semantics.specs.Items.{items_of};
ghost use Rattle.semantics.specs.Methods.{op_of, method_of};
ghost use Rattle.verifier.specs.Answers.{answered, row_of};
ghost use Rattle.filler.specs.Sweeps.{table_of, sweep_meaning, behind_as, visited};

use crate::labels::label_numbers;
use crate::rows::{differs, joined_into};
use classes::table::ClassTable;
use semantics::array_vec::ArrayVec;
use semantics::method::Method;
use semantics::operation::Operation;
use semantics::refusal::Refusal;
use verifier::check::{carried, misfit_at};
use verifier::env::Env;
use verifier::labels::named_labels;

// Where a sweep stands: the labels' rows so far, whether one was altered, and the lowest point passed over.
// The rows lie beside the labels, and not in them: a sweep changes its rows, and the method keeps its labels.
#[derive(Clone, Copy)]
pub struct Sweep {
    pub table: ArrayVec<Option<ArrayVec<u8, 8>>, 16>,
    pub altered: bool,
    pub missed: Option<usize>,
}

impl Sweep {
    // A row that comes to a label is joined into the label's.
    fn comes<T: ClassTable>(&mut self, table: &T, row: &ArrayVec<u8, 8>, label: usize)
        ensures { sweep_meaning self.new ≡ comes (T.listed table.now) (items_of row.now) label (sweep_meaning self.old) }
    {
        let old = self.table.get_or(label, None);
        let new = joined_into(table, old, row);
        self.altered |= differs(old, &new);
        self.table.set(label, Some(new));
    }

    // A row that comes to each of several.
    fn comes_to<T: ClassTable>(&mut self, table: &T, row: &ArrayVec<u8, 8>, labels: &[u8])
        ensures { sweep_meaning self.new ≡ comes_to (T.listed table.now) (items_of row.now) labels.now (sweep_meaning self.old) }
    {
        for label in labels {
            self.comes(table, row, *label as usize);
        }
    }

    // A current row falls into the label of a point, if there is one.
    fn falls_into<T: ClassTable>(
        &mut self,
        table: &T,
        label: Option<usize>,
        current: Option<ArrayVec<u8, 8>>,
    )
        ensures { sweep_meaning self.new ≡ falls_into (T.listed table.now) label (row_of current) (sweep_meaning self.old) }
    {
        if let (Some(label), Some(row)) = (label, current) {
            self.comes(table, &row, label);
        }
    }

    // The row at a point: its label's, where it has one.
    fn row_there(
        &self,
        label: Option<usize>,
        current: Option<ArrayVec<u8, 8>>,
    ) -> Option<ArrayVec<u8, 8>>
        ensures { row_of result ≡ row_there label (row_of current) (sweep_meaning self.now) }
    {
        match label {
            Some(label) => self.table.get_or(label, None),
            None => current,
        }
    }

    // A point that no row has come to.
    fn pass_over(&mut self, point: usize)
        ensures { sweep_meaning self.new ≡ passed_over point (sweep_meaning self.old) }
    {
        self.missed = self.missed.or(Some(point));
    }

    // What an operation does with the row at its point; answers the row behind it.
    fn visit<T: ClassTable>(
        &mut self,
        env: &Env<'_, T>,
        method: &Method,
        point: usize,
        row: Option<ArrayVec<u8, 8>>,
        operation: &Operation,
    ) -> Result<Option<ArrayVec<u8, 8>>, Refusal>
        ensures { behind_as result (sweep_meaning self.new) ≡ visited (T.listed env.now.table.now) (map entry_of env.now.entries.now) (method_of method.now) point (row_of row) (sweep_meaning self.old) (op_of operation.now) }
    {
        let Some(row) = row else {
            self.pass_over(point);
            return Ok(None);
        };
        let tested = env.own_tests(method, &row, operation);
        let left = tested.map_err(|misfit| misfit_at(point, misfit))?;
        self.comes_to(env.table, &row, named_labels(operation).as_slice());
        Ok(carried(operation, left))
    }
}

// A sweep over all points, from the rows that the labels have so far.
pub fn sweep_points<T: ClassTable>(
    env: &Env<'_, T>,
    method: &Method,
    rows: ArrayVec<Option<ArrayVec<u8, 8>>, 16>,
) -> Result<Sweep, Refusal>
    ensures { answered sweep_meaning result ≡ sweep_of (T.listed env.now.table.now) (map entry_of env.now.entries.now) (method_of method.now) (table_of rows) }
{
    let numbers = label_numbers(method.labels.as_slice());
    let mut sweep = Sweep {
        table: rows,
        altered: false,
        missed: None,
    };
    let mut current = Some(ArrayVec::repeat(0, method.temporaries as usize));
    let code = method.code.as_slice();
    for (point, operation) in code.iter().enumerate() {
        let label = numbers.get_or(point, None);
        sweep.falls_into(env.table, label, current);
        let row = sweep.row_there(label, current);
        current = sweep.visit(env, method, point, row, operation)?;
    }
    Ok(sweep)
}
