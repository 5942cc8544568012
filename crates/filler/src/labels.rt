// The labels of a method: which of them marks a point, and their rows.
ghost use Rattle.std.specs.Prelude.{◌≡◌, ℕ, ◌<◌, map, None, slice_index_or};
ghost use Rattle.semantics.specs.Fill.{label_number, with_rows, with_table};
ghost use Rattle.semantics.specs.Items.{items_of};
ghost use Rattle.semantics.specs.Methods.{label_of, method_of};
ghost use Rattle.filler.specs.Sweeps.{table_of};

use semantics::array_vec::ArrayVec;
use semantics::method::{Label, Method};

const MAX_POINTS: usize = 64;

// For each point the number of the label that marks it, of the first where there are several. No map: nothing is allocated here.
pub fn label_numbers(labels: &[Label]) -> ArrayVec<Option<usize>, 64>
    ensures { (p : ℕ) → p < 64 → slice_index_or (items_of result) p None ≡ label_number (map label_of labels.now) 0 p }
{
    let mut numbers = ArrayVec::repeat(None, MAX_POINTS);
    for (i, label) in labels.iter().enumerate() {
        let point = label.point as usize;
        let number = numbers.get_or(point, None).or(Some(i));
        numbers.set(point, number);
    }
    numbers
}

// The labels with the rows of a table in place of their own.
fn labels_with(
    labels: &ArrayVec<Label, 16>,
    rows: &ArrayVec<Option<ArrayVec<u8, 8>>, 16>,
) -> ArrayVec<Label, 16>
    ensures { map label_of (items_of result) ≡ with_rows (map label_of (items_of labels.now)) (table_of rows.now) }
{
    // Not a `zip`: it would end with the rows, and a label behind them gets an empty one.
    let mut filled = *labels;
    for (i, label) in labels.as_slice().iter().enumerate() {
        let row = rows.get_or(i, None).unwrap_or(ArrayVec::new(0));
        filled.set(
            i,
            Label {
                point: label.point,
                row,
            },
        );
    }
    filled
}

// A method with the rows of a table in place of its own.
pub fn method_with(method: &Method, rows: &ArrayVec<Option<ArrayVec<u8, 8>>, 16>) -> Method
    ensures { method_of result ≡ with_table (method_of method.now) (table_of rows.now) }
{
    // `Method { labels, ..*method }` is refused over a ghost field.
    let mut filled = *method;
    filled.labels = labels_with(&method.labels, rows);
    filled
}
