// The card in hand, and what is printed of its answers.
ghost use Rattle.std.specs.Prelude.{◌≡◌, length};
ghost use Rattle.semantics.specs.declared.call.Kind.TheVariants.{Issue};
ghost use Rattle.semantics.specs.Calls.{act};
ghost use Rattle.semantics.specs.Cards.{blank_card, fill_into, write_into};
ghost use Rattle.session.specs.CallMeaning.{call_of};
ghost use Rattle.console.specs.Hands.{hand_of, table_of, lent};

use crate::answer::Answer;
use crate::cards::Cards;
use crate::command::Table;
use hosts::host::Host;
use semantics::call::{Kind, Response};
use session::call::Call;
use std::io;

const MAX_ROOM: usize = 65535;

// The buffer is fixed: a call writes into memory that it is lent, as much of the front as the command says, and answers a length.
#[derive(Drop)]
pub struct Desk {
    cards: Cards,
    buffer: [u8; MAX_ROOM],
}

impl Desk {
    // A blank issue card over the climbing table.
    pub fn new() -> Desk
        ensures { hand_of result.cards ≡ blank_card Issue }
    {
        Desk {
            cards: Cards::blank(Kind::Issue, Table::Climbing),
            buffer: [0; MAX_ROOM],
        }
    }

    // Puts a blank card in place of the one in hand.
    pub fn renew(&mut self, kind: Kind, table: Table)
        ensures hand { hand_of self.new.cards ≡ blank_card kind }
        ensures table { table_of self.new.cards ≡ table }
        ensures buffer { self.new.buffer ≡ self.old.buffer }
    {
        self.cards = Cards::blank(kind, table);
    }

    // Performs a call that is no fill, and prints its answer.
    pub fn call<H: Host>(
        &mut self,
        rt: &HostRuntime,
        host: &mut H,
        call: Call<'_>,
    ) -> io::Result<()>
        ensures card { hand_of self.new.cards ≡ (act H.reply (hand_of self.old.cards) (H.condition host.old) (call_of 0 call.entry)).card }
        ensures table { table_of self.new.cards ≡ table_of self.old.cards }
        ensures host { H.condition host.new ≡ (act H.reply (hand_of self.old.cards) (H.condition host.old) (call_of 0 call.entry)).host }
        ensures buffer { self.new.buffer ≡ self.old.buffer }
    {
        let answer = Answer(self.cards.perform(host, call, &mut []));
        println!(rt; "{answer}")
    }

    // Performs a fill into a buffer of that length, and prints its answer and the text.
    pub fn fill<H: Host>(
        &mut self,
        rt: &HostRuntime,
        host: &mut H,
        room: u16,
        text: &[u8],
    ) -> io::Result<()>
        ensures card { hand_of self.new.cards ≡ hand_of self.old.cards }
        ensures table { table_of self.new.cards ≡ table_of self.old.cards }
        ensures host { H.condition host.new ≡ H.condition host.old }
        ensures buffer { self.new.buffer ≡ lent room (fill_into (hand_of self.old.cards) text.now) self.old.buffer }
    {
        let buffer = &mut self.buffer[0..room as usize];
        let response = self.cards.perform(host, Call::Fill { text }, buffer);
        let answer = Answer(response);
        println!(rt; "{answer}")?;
        match response {
            Response::Filled { length, .. } => self.show(rt, length),
            _ => Ok(()),
        }
    }

    // Writes a row's text into a buffer of that length, and prints its answer and the text.
    pub fn write(&mut self, rt: &HostRuntime, row: u32, room: u16) -> io::Result<()>
        ensures card { self.new.cards ≡ self.old.cards }
        ensures buffer { self.new.buffer ≡ lent room (write_into (hand_of self.old.cards) row) self.old.buffer }
    {
        match self.cards.write(row, &mut self.buffer[0..room as usize]) {
            Ok(length) => {
                println!(rt; "length={length}")?;
                self.show(rt, length)
            }
            Err(refusal) => {
                let answer = Answer(Response::Refused(refusal));
                println!(rt; "{answer}")
            }
        }
    }

    // The text at the front of the buffer.
    fn show(&self, rt: &HostRuntime, length: usize) -> io::Result<()> {
        match self.buffer.get(0..length) {
            Some(text) => rt.write_all(text),
            None => Ok(()),
        }
    }

    pub fn fits(&self, rt: &HostRuntime, a: u32, b: u32) -> io::Result<()> {
        if self.cards.fits(a, b) {
            println!(rt; "fits")
        } else {
            println!(rt; "fits-not")
        }
    }

    pub fn join(&self, rt: &HostRuntime, a: u32, b: u32) -> io::Result<()> {
        let join = self.cards.join(a, b);
        println!(rt; "join={join}")
    }
}
