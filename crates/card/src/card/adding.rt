// A blank card, and the calls that add classes and rows.
ghost use Rattle.std.specs.Prelude.{◌≡◌, ◌<◌, map, length, OnOk};
ghost use Rattle.semantics.specs.Cards.{blank_card, class_answer, class_after, signature, with_row, native_row, native_answer, native_after, checked_on, loaded_method, load_answer, load_after};
ghost use Rattle.semantics.specs.Entries.{entry_of};
ghost use Rattle.semantics.specs.Items.{items_of};
ghost use Rattle.semantics.specs.Methods.{method_of};
ghost use Rattle.semantics.specs.NewRows.{room_for};
ghost use Rattle.semantics.specs.Stores.{body_of, points_of};
ghost use Rattle.verifier.specs.Answers.{answered};
ghost use Rattle.card.specs.CardMeaning.{card_of};

use crate::card::Card;
use crate::numbers::entry_of;
use crate::rows::Rows;
use crate::rows::kept::code_in;
use classes::table::ClassTable;
use filler::fill::with_entry;
use machine::run::Run;
use semantics::body::Body;
use semantics::call::Kind;
use semantics::entry::Entry;
use semantics::method::Method;
use semantics::refusal::Refusal;
use text::form::form;
use text::read::read;
use verifier::env::Env;
use verifier::rules::{entry_in, room_for};

impl<T: ClassTable> Card<T> {
    pub fn blank(kind: Kind) -> Card<T>
        ensures { card_of T.listed result ≡ blank_card kind }
    {
        Card {
            kind,
            table: T::blank(),
            rows: Rows::none(),
            run: Run::idle(),
        }
    }

    // A new class under `parent`, and its number.
    pub fn class(&mut self, parent: u32) -> Result<usize, Refusal>
        ensures answer { result ≡ class_answer (card_of T.listed self.old) parent }
        ensures after { card_of T.listed self.new ≡ class_after (card_of T.listed self.old) parent }
    {
        let number = self.table.add(parent)?;
        Ok(number as usize)
    }

    // One row more, and its number.
    fn add_row(&mut self, entry: Entry, body: Body) -> usize
        requires { length (items_of self.old.rows.entries) < 64 }
        ensures number { result ≡ length (card_of T.listed self.old).store.entries }
        ensures after { card_of T.listed self.new ≡ with_row (card_of T.listed self.old) (entry_of entry) (body_of body) }
    {
        let number = self.rows.len();
        self.rows.push(entry, body);
        number
    }

    // Whether there is room for one row more, with `more` points. That there is stays a clause: it holds of a card from this test to the push, and of no card always.
    fn room(&self, more: usize) -> Result<(), Refusal>
        ensures answer { result ≡ room_for (length (card_of T.listed self.now).store.entries) (points_of (card_of T.listed self.now).store.bodies) more }
        ensures there { OnOk result (length (items_of self.now.rows.entries) < 64) }
    {
        room_for(self.rows.len(), self.rows.points(), more)
    }

    // A new native row, and its number.
    pub fn native(
        &mut self,
        class: u32,
        name: u32,
        arguments: &[u32],
        res: u32,
    ) -> Result<usize, Refusal>
        ensures answer { result ≡ native_answer (card_of T.listed self.old) (signature class name arguments.now res) }
        ensures after { card_of T.listed self.new ≡ native_after (card_of T.listed self.old) (signature class name arguments.now res) }
    {
        let entry = entry_of(class, name, arguments, res)?;
        self.rows.env(&self.table).entry_rules(&entry)?;
        self.room(0)?;
        Ok(self.add_row(entry, Body::Native))
    }

    // The check of a method, which only an issue card makes.
    fn checked(&self, method: &Method) -> Result<(), Refusal>
        requires { length (items_of self.now.rows.entries) < 64 }
        ensures { result ≡ checked_on self.now.kind (T.listed self.now.table) (map entry_of (items_of self.now.rows.entries)) (method_of method.now) }
    {
        match self.kind {
            Kind::Issue => {
                let known = with_entry(self.rows.entries(), entry_in(method))?;
                let env = Env {
                    table: &self.table,
                    entries: known.as_slice(),
                };
                env.check(method)
            }
            Kind::Bench => Ok(()),
        }
    }

    // The method of a text, where it may be added.
    fn admitted(&self, text: &[u8]) -> Result<Method, Refusal>
        ensures method { answered method_of result ≡ loaded_method (card_of T.listed self.now) text.now }
        ensures room { OnOk result (length (items_of self.now.rows.entries) < 64) }
    {
        let method = read(text)?;
        form(&method)?;
        self.rows.env(&self.table).method_rules(&method)?;
        self.room(method.code.len())?;
        self.checked(&method)?;
        Ok(method)
    }

    // A new row with the method of a text, and its number.
    pub fn load(&mut self, text: &[u8]) -> Result<usize, Refusal>
        ensures answer { result ≡ load_answer (card_of T.listed self.old) text.now }
        ensures after { card_of T.listed self.new ≡ load_after (card_of T.listed self.old) text.now }
    {
        let method = self.admitted(text)?;
        Ok(self.add_row(entry_in(&method), Body::Coded(code_in(&method))))
    }
}
