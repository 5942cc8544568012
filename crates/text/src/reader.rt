// A text, as far as it is not read yet.
pub mod lines;

use crate::part::Part;

#[derive(Drop)]
pub struct Reader<'a> {
    left: Part<'a>,
}
