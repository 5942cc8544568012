// Rows of classes that are joined.
ghost use Rattle.std.specs.Prelude.{◌≡◌};
ghost use Rattle.semantics.specs.Fill.{join_rows, joined_into};
ghost use Rattle.semantics.specs.Items.{items_of};
ghost use Rattle.verifier.specs.Answers.{row_of};
ghost use Rattle.filler.specs.Sweeps.{differs};

use classes::table::ClassTable;
use semantics::array_vec::ArrayVec;

// Two rows joined cell by cell.
pub fn join_rows<T: ClassTable>(
    table: &T,
    row: &ArrayVec<u8, 8>,
    other: &ArrayVec<u8, 8>,
) -> ArrayVec<u8, 8>
    ensures { items_of result ≡ join_rows (T.listed table.now) (items_of row.now) (items_of other.now) }
{
    let mut joined = ArrayVec::new(0);
    for (class, other) in row.as_slice().iter().zip(other.as_slice()) {
        let _ = joined.push(table.join(*class, *other));
    }
    joined
}

// A label's row after another came to it.
pub fn joined_into<T: ClassTable>(
    table: &T,
    old: Option<ArrayVec<u8, 8>>,
    row: &ArrayVec<u8, 8>,
) -> ArrayVec<u8, 8>
    ensures { items_of result ≡ joined_into (T.listed table.now) (row_of old) (items_of row.now) }
{
    match old {
        Some(old) => join_rows(table, &old, row),
        None => *row,
    }
}

// Whether a label's row is another than before; its first row is.
pub fn differs(old: Option<ArrayVec<u8, 8>>, new: &ArrayVec<u8, 8>) -> bool
    ensures { result ≡ differs (row_of old) (items_of new.now) }
{
    old.map_or(true, |old| old.as_slice() != new.as_slice())
}
