// The method rows of a card. A row has its entry and its body under one number.
ghost use Rattle.std.specs.Prelude.{◌≡◌, length};
ghost use Rattle.semantics.specs.Items.{items_of};

use semantics::array_vec::ArrayVec;
use semantics::body::Body;
use semantics::entry::Entry;

pub mod kept;

// Two lists, and not one of pairs: lookups, the check and filling take the entries as one slice.
#[derive(Clone, Copy)]
pub struct Rows {
    entries: ArrayVec<Entry, 64>,
    bodies: ArrayVec<Body, 64>,
    ghost paired: { length (items_of entries) ≡ length (items_of bodies) },
}
