// The calls that write the text of a method into a lent buffer.
ghost use Rattle.std.specs.Prelude.{◌≡◌, ◌≤◌, length, IfOk};
ghost use Rattle.semantics.specs.Cards.{fill_answer, fill_into, write_answer, write_into};
ghost use Rattle.card.specs.CardMeaning.{card_of};

use crate::card::Card;
use crate::rows::kept::method_with;
use classes::table::ClassTable;
use filler::fill::fill;
use semantics::body::Body;
use semantics::refusal::Refusal;
use writer::write;

impl<T: ClassTable> Card<T> {
    // The text of a method with its rows filled; answers its length and the number of sweeps.
    pub fn fill(&self, text: &[u8], buffer: &mut [u8]) -> Result<(usize, usize), Refusal>
        ensures answer { result ≡ fill_answer (card_of T.listed self.now) text.now (length buffer.old) }
        ensures after { buffer.new ≡ fill_into (card_of T.listed self.now) text.now buffer.old }
        ensures bound { IfOk result (λ x. x.0 ≤ length buffer.old) }
    {
        fill(&self.rows.env(&self.table), text, buffer)
    }

    // The text of a row's method; answers its length.
    pub fn write(&self, row: u32, buffer: &mut [u8]) -> Result<usize, Refusal>
        ensures answer { result ≡ write_answer (card_of T.listed self.now) row buffer.old }
        ensures after { buffer.new ≡ write_into (card_of T.listed self.now) row buffer.old }
        ensures bound { IfOk result (λ n. n ≤ length buffer.old) }
    {
        let row = row as usize;
        let entry = self.rows.entries().get(row).ok_or(Refusal::NoSuchRow)?;
        match &self.rows.bodies()[row] {
            Body::Native => Err(Refusal::NativeRow),
            Body::Coded(code) => write(&method_with(entry, code), buffer),
        }
    }
}
