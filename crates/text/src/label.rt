// Rows of classes, and labels.
ghost use Rattle.std.specs.Prelude.{◌≡◌, ◌≤◌};
ghost use Rattle.semantics.specs.Items.{items_of};
ghost use Rattle.semantics.specs.Methods.{label_of};
ghost use Rattle.semantics.specs.Values.{mapped, arguments_at, row_at, label_at};
ghost use Rattle.text.specs.Parts.{piece_of};

use crate::item::Item;
use crate::list::{both, list};
use crate::part::{Part, Parts};
use semantics::array_vec::ArrayVec;
use semantics::method::Label;
use semantics::refusal::Fault;

pub const MAX_ARGUMENTS: usize = 7;

// How many temporaries a method has, and so classes each row.
#[derive(Clone, Copy)]
pub struct Temporaries {
    pub count: u8,
    ghost few: { count ≤ 8 },
}

// The argument classes that the value of an args line says.
pub fn read_arguments(value: Part<'_>) -> Result<ArrayVec<u8, 7>, Fault>
    ensures { mapped items_of result ≡ arguments_at (piece_of value.entry) }
{
    let classes = Parts::or_none(value, b',');
    if classes.len() > MAX_ARGUMENTS {
        return Err(Fault::Malformed);
    }
    list(classes, 0)
}

// A row with one class for each temporary.
fn read_row(value: Part<'_>, temporaries: Temporaries) -> Result<ArrayVec<u8, 8>, Fault>
    ensures { mapped items_of result ≡ row_at temporaries.count (piece_of value.entry) }
{
    let classes = Parts::or_none(value, b',');
    if classes.len() != usize::from(temporaries.count) {
        return Err(Fault::Malformed);
    }
    list(classes, 0)
}

// The label that the value of a label line says.
pub fn read_label(value: Part<'_>, temporaries: Temporaries) -> Result<Label, Fault>
    ensures { mapped label_of result ≡ label_at temporaries.count (piece_of value.entry) }
{
    let mut parts = Parts::new(value, b':');
    let point = u8::read(parts.next_part()?);
    let row = read_row(parts.next_part()?, temporaries);
    parts.end()?;
    let (point, row) = both(point, row)?;
    Ok(Label { point, row })
}
