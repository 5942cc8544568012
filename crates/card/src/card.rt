// The card: its kind, its classes and rows, and its run.
use crate::rows::Rows;
use machine::run::Run;
use semantics::call::Kind;

pub mod adding;
pub mod fitting;
pub mod runs;
pub mod texts;

#[derive(Drop)]
pub struct Card<T> {
    kind: Kind,
    table: T,
    rows: Rows,
    run: Run,
}
