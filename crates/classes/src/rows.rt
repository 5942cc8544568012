// Rows of cells, where each cell has a class.
ghost use Rattle.std.specs.Prelude.{◌≡◌, ℕ, Decides};
ghost use Rattle.semantics.specs.Rows.{FitsEach, cell_fits, row_fits};

use crate::table::ClassTable;
use semantics::value::Value;

pub trait Cell {
    ghost kind: { Self → ℕ };

    fn class(&self) -> u8
        ensures { result ≡ kind self.now };
}

// A cell that is a class.
impl Cell for u8 {
    ghost kind = { λ class. class };

    fn class(&self) -> u8 {
        *self
    }
}

// A value counts by its class.
impl Cell for Value {
    ghost kind = { λ value. value.class };

    fn class(&self) -> u8 {
        self.class
    }
}

pub fn cell_fits<T: ClassTable, C: Cell, D: Cell>(table: &T, cell: &C, other: &D) -> bool
    ensures { result ≡ cell_fits (T.listed table.now) C.Cell.kind D.Cell.kind cell.now other.now }
{
    table.fits(cell.class(), other.class())
}

// Whether the rows have the same length and each cell fits the one at its place.
pub fn row_fits<T: ClassTable, C: Cell, D: Cell>(table: &T, row: &[C], other: &[D]) -> bool
    ensures value { result ≡ row_fits (T.listed table.now) C.Cell.kind D.Cell.kind row.now other.now }
    ensures cells { Decides result (FitsEach (T.listed table.now) C.Cell.kind D.Cell.kind row.now other.now) }
{
    row.len() == other.len()
        && row
            .iter()
            .zip(other)
            .all(|(cell, other)| cell_fits(table, cell, other))
}
