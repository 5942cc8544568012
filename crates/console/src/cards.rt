// The card in hand, over one of the two class tables.
ghost use Rattle.std.specs.Prelude.{◌≡◌, [], ◌∷◌, length};
ghost use Rattle.semantics.specs.Calls.{act};
ghost use Rattle.semantics.specs.Cards.{blank_card, write_answer, write_into};
ghost use Rattle.semantics.specs.Promise.{PromisedFrom};
ghost use Rattle.semantics.specs.Tree.{fits, join};
ghost use Rattle.session.specs.CallMeaning.{call_of, buffer_after};
ghost use Rattle.console.specs.Hands.{hand_of, table_of};

use crate::command::Table;
use card::card::Card;
use classes::climbing::Climbing;
use classes::masks::Masks;
use hosts::host::Host;
use semantics::call::{Kind, Response};
use semantics::refusal::Refusal;
use session::call::Call;
use session::perform::perform_all;

#[derive(Drop)]
pub enum Cards {
    Climbing(Card<Climbing>),
    Masks(Card<Masks>),
}

// Both arms stand in each method: the gate refuses a function that hands out a `dyn` card, and a generic `perform_all` allows none.
impl Cards {
    // A blank card of that kind in hand, over that table.
    pub fn blank(kind: Kind, table: Table) -> Cards
        ensures hand { hand_of result ≡ blank_card kind }
        ensures table { table_of result ≡ table }
    {
        match table {
            Table::Climbing => Cards::Climbing(Card::blank(kind)),
            Table::Masks => Cards::Masks(Card::blank(kind)),
        }
    }

    // The response of one call; `buffer` is lent to a fill.
    pub fn perform<H: Host>(&mut self, host: &mut H, call: Call<'_>, buffer: &mut [u8]) -> Response
        ensures response { result ≡ (act H.reply (hand_of self.old) (H.condition host.old) (call_of (length buffer.old) call.entry)).response }
        ensures card { hand_of self.new ≡ (act H.reply (hand_of self.old) (H.condition host.old) (call_of (length buffer.old) call.entry)).card }
        ensures table { table_of self.new ≡ table_of self.old }
        ensures host { H.condition host.new ≡ (act H.reply (hand_of self.old) (H.condition host.old) (call_of (length buffer.old) call.entry)).host }
        ensures buffer { buffer.new ≡ buffer_after (hand_of self.old) (call_of (length buffer.old) call.entry) buffer.old }
        ensures promise { PromisedFrom H.reply (hand_of self.old) (H.condition host.old) (call_of (length buffer.old) call.entry ∷ []) }
    {
        let calls = [call];
        let mut responses = [Response::Started];
        match self {
            Cards::Climbing(card) => perform_all(card, host, &calls, buffer, &mut responses),
            Cards::Masks(card) => perform_all(card, host, &calls, buffer, &mut responses),
        }
        responses[0]
    }

    // The text of a row's method; answers its length.
    pub fn write(&self, row: u32, buffer: &mut [u8]) -> Result<usize, Refusal>
        ensures answer { result ≡ write_answer (hand_of self.now) row buffer.old }
        ensures after { buffer.new ≡ write_into (hand_of self.now) row buffer.old }
    {
        match self {
            Cards::Climbing(card) => card.write(row, buffer),
            Cards::Masks(card) => card.write(row, buffer),
        }
    }

    pub fn fits(&self, a: u32, b: u32) -> bool
        ensures { result ≡ fits (hand_of self.now).store.classes a b }
    {
        match self {
            Cards::Climbing(card) => card.fits(a, b),
            Cards::Masks(card) => card.fits(a, b),
        }
    }

    pub fn join(&self, a: u32, b: u32) -> u32
        ensures { result ≡ join (hand_of self.now).store.classes a b }
    {
        match self {
            Cards::Climbing(card) => card.join(a, b),
            Cards::Masks(card) => card.join(a, b),
        }
    }
}
