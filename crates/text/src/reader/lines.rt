// Lines handed out one after the other.
ghost use Rattle.std.specs.Prelude.{◌≡◌, ◌≤◌, true, length, IfOk, codes, OnOk, ◌==◌};
ghost use Rattle.semantics.specs.Items.{items_of};
ghost use Rattle.semantics.specs.Methods.{op_of, label_of};
ghost use Rattle.semantics.specs.Pieces.{piece, up_to};
ghost use Rattle.semantics.specs.Reading.{begins, behind, line, refused};
ghost use Rattle.semantics.specs.Values.{number_at, arguments_at, label_at, operation_at};
ghost use Rattle.text.specs.Lines.{left_of, line_of, piece_read, GivesLine, read_as, itself};

use crate::label::{Temporaries, read_arguments, read_label};
use crate::number::number;
use crate::operation::read_operation;
use crate::part::Part;
use crate::reader::Reader;
use semantics::array_vec::ArrayVec;
use semantics::method::Label;
use semantics::operation::Operation;
use semantics::refusal::{Fault, Refusal};

// What is told of a fault in the value of a line; a malformed value is told at its first byte.
fn refusal(value: usize, fault: Fault) -> Refusal
    ensures { result ≡ refused value fault }
{
    match fault {
        Fault::Malformed => Refusal::Malformed { at: value },
        Fault::OutOfRange { at } => Refusal::OutOfRange { at },
    }
}

impl<'a> Reader<'a> {
    pub fn new(text: &'a [u8]) -> Reader<'a>
        ensures { left_of result ≡ piece 0 text.now }
    {
        Reader {
            left: Part { at: 0, bytes: text },
        }
    }

    pub fn place(&self) -> usize
        ensures { result ≡ (left_of self.now).place }
    {
        self.left.at
    }

    pub fn is_done(&self) -> bool
        ensures { result ≡ (length (left_of self.now).held == 0) }
    {
        self.left.bytes.is_empty()
    }

    #[tactic(auto, using(crate::proofs::Words::starts_begins))]
    pub fn begins(&self, word: &[u8]) -> bool
        ensures { result ≡ begins word.now (left_of self.now).held }
    {
        self.left.bytes.starts_with(word)
    }

    // The value of the next line, which is to have that word. A type of words without byte 10 would wrap each literal of read.rt.
    fn line(&mut self, word: &[u8]) -> Result<Part<'a>, Refusal>
        requires { up_to 10 word.now ≡ length word.now }
        ensures value { piece_read result ≡ line_of word.now (left_of self.old) }
        ensures after { OnOk result (left_of self.new ≡ behind (left_of self.old)) }
    {
        let refusal = Refusal::Line { at: self.left.at };
        let (line, left) = self.left.split_once(b'\n').ok_or(refusal)?;
        let value = line.strip_prefix(word).ok_or(refusal)?;
        self.left = left;
        Ok(value)
    }

    // What `read` finds in the value of the next line.
    fn value<T, F: FnOnce(Part<'a>) -> Result<T, Fault>>(
        &mut self,
        word: &[u8],
        read: F,
    ) -> Result<T, Refusal>
        requires no_end { up_to 10 word.now ≡ length word.now }
        requires callable { F.IsAlwaysCallable read }
        ensures { GivesLine (F.post read) word.now (left_of self.old) result (left_of self.new) }
    {
        let value = self.line(word)?;
        let at = value.at;
        read(value).map_err(|fault| refusal(at, fault))
    }

    pub fn number(&mut self, word: &[u8], max: u8) -> Result<u8, Refusal>
        requires { up_to 10 word.now ≡ length word.now }
        ensures value { read_as itself result (left_of self.new) ≡ line word.now (number_at max) (left_of self.old) }
        ensures bound { IfOk result (λ n. n ≤ max) }
    {
        self.value(word, |value| number(value, max))
    }

    pub fn arguments(&mut self) -> Result<ArrayVec<u8, 7>, Refusal>
        ensures { read_as items_of result (left_of self.new) ≡ line (codes "args=") arguments_at (left_of self.old) }
    {
        self.value(b"args=", read_arguments)
    }

    pub fn label(&mut self, temporaries: Temporaries) -> Result<Label, Refusal>
        ensures { read_as label_of result (left_of self.new) ≡ line (codes "label=") (label_at temporaries.count) (left_of self.old) }
    {
        self.value(b"label=", |value| read_label(value, temporaries))
    }

    pub fn operation(&mut self) -> Result<Operation, Refusal>
        ensures { read_as op_of result (left_of self.new) ≡ line (codes "op=") operation_at (left_of self.old) }
    {
        self.value(b"op=", read_operation)
    }
}
