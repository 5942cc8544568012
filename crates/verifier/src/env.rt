// What a method is checked and run in: a table of classes and the method rows.
use semantics::entry::Entry;

#[derive(Drop)]
pub struct Env<'a, T> {
    pub table: &'a T,
    pub entries: &'a [Entry],
}
