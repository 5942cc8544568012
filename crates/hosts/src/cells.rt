// The cell host: 64 Ints that are kept.
ghost use Rattle.std.specs.Prelude.{◌≡◌, cond, List, replicate, ℤ, pos, Ok, Err};
ghost use Rattle.semantics.specs.declared.value.Cause.TheVariants.{CellNumber};
ghost use Rattle.semantics.specs.Hosts.{is_cell, cell_place, cell_reply};

use crate::host::Host;
use crate::numbers::{an_int, shape};
use semantics::value::{Answer, Cause, INT, Question};

pub const CELLS: usize = 64;

// The names that it answers. Constants, and no enum: each is the card's number, and is met once.
const GET: u8 = 128;

const PUT: u8 = 129;

#[derive(Clone, Copy)]
pub struct Cells {
    cells: [i32; CELLS],
}

// The place of the cell of that number.
fn cell_of(number: i32) -> Result<usize, Cause>
    ensures { result ≡ cond (is_cell number) (Ok (cell_place number)) (Err CellNumber) }
{
    match usize::try_from(number) {
        Ok(place) if place < CELLS => Ok(place),
        _ => Err(Cause::CellNumber),
    }
}

impl Cells {
    // All cells hold 0.
    pub fn new() -> Cells
        ensures { result.cells ≡ replicate 64 (pos 0) }
    {
        Cells { cells: [0; CELLS] }
    }
}

impl Host for Cells {
    ghost Condition = { List ℤ };

    ghost condition = { λ s. s.cells };

    ghost reply = { cell_reply };

    fn ask(&mut self, question: &Question) -> Answer {
        let count = match question.name {
            GET => 0,
            PUT => 1,
            _ => return Err(Cause::NameUnknown),
        };
        shape(question, count, INT)?;
        let cell = cell_of(question.receiver.number)?;
        let former = self.cells[cell];
        if let Some(value) = question.arguments.as_slice().first() {
            self.cells[cell] = value.number;
        }
        an_int(former)
    }
}
