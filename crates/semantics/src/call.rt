// What the card's calls take and answer.
use crate::ending::End;
use crate::refusal::Refusal;

// An issue card loads only what passes the check; a bench card loads without it.
#[derive(Clone, Copy, PartialEq, Debug)]
pub enum Kind {
    Issue,
    Bench,
}

// A value as a call is handed it, of any class and number.
#[derive(Clone, Copy)]
pub struct Offered {
    pub class: u32,
    pub number: i64,
}

// The answer of a call.
#[derive(Clone, Copy)]
pub enum Response {
    Class { number: usize },
    Row { number: usize },
    Started,
    Ended(End),
    Filled { length: usize, sweeps: usize },
    Refused(Refusal),
}
