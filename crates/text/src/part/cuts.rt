// Cutting a part at its separators.
ghost use Rattle.std.specs.Prelude.{◌≡◌, length};
ghost use Rattle.std.specs.Iterator.{YieldsFirstBy, item_count};
ghost use Rattle.semantics.specs.Pieces.{parted, parted_or_none};
ghost use Rattle.text.specs.Parts.{piece_of, piece_in, pieces_in, piece_said, byte_and_piece, opened, cut, behind_word, parts_left, taken, rest, ended};

use crate::part::{Part, Parts};
use semantics::refusal::Fault;

impl<'a> Part<'a> {
    // The first byte, and the part behind it.
    pub fn split_first(self) -> Option<(u8, Part<'a>)>
        ensures { byte_and_piece result ≡ opened (piece_of self.entry) }
    {
        let (first, bytes) = self.bytes.split_first()?;
        Some((
            *first,
            Part {
                at: self.at + 1,
                bytes,
            },
        ))
    }

    // The parts before and behind the first separator.
    pub fn split_once(self, separator: u8) -> Option<(Part<'a>, Part<'a>)>
        ensures { pieces_in result ≡ cut separator (piece_of self.entry) }
    {
        let n = self.bytes.iter().position(|byte| *byte == separator)?;
        Some((
            Part {
                at: self.at,
                bytes: &self.bytes[..n],
            },
            Part {
                at: self.at + n + 1,
                bytes: &self.bytes[n + 1..],
            },
        ))
    }

    // The part behind the word that it begins with.
    pub fn strip_prefix(self, word: &[u8]) -> Option<Part<'a>>
        ensures { piece_in result ≡ behind_word word.now (piece_of self.entry) }
    {
        let bytes = self.bytes.strip_prefix(word)?;
        Some(Part {
            at: self.at + word.len(),
            bytes,
        })
    }
}

impl<'a> Parts<'a> {
    // The parts of a value, one at least.
    pub fn new(value: Part<'a>, separator: u8) -> Parts<'a>
        ensures { parts_left result ≡ parted separator value.entry.at value.entry.bytes.now }
    {
        Parts {
            left: Some(value),
            separator,
        }
    }

    // The same, where an empty value has no part.
    pub fn or_none(value: Part<'a>, separator: u8) -> Parts<'a>
        ensures { parts_left result ≡ parted_or_none separator value.entry.at value.entry.bytes.now }
    {
        Parts {
            left: if value.bytes.is_empty() {
                None
            } else {
                Some(value)
            },
            separator,
        }
    }

    // The next part, where the value is to have one.
    pub fn next_part(&mut self) -> Result<Part<'a>, Fault>
        ensures value { piece_said result ≡ taken (parts_left self.old) }
        ensures after { parts_left self.new ≡ rest (parts_left self.old) }
    {
        self.next().ok_or(Fault::Malformed)
    }

    // That no part is left.
    pub fn end(&self) -> Result<(), Fault>
        ensures { result ≡ ended (parts_left self.now) }
    {
        match self.left {
            Some(_) => Err(Fault::Malformed),
            None => Ok(()),
        }
    }

    // How many parts are left.
    pub fn len(&self) -> usize
        ensures { result ≡ length (parts_left self.now) }
    {
        match self.left {
            Some(part) => {
                1 + part
                    .bytes
                    .iter()
                    .filter(|byte| **byte == self.separator)
                    .count()
            }
            None => 0,
        }
    }
}

impl<'a> Iterator for Parts<'a> {
    type Item = Part<'a>;

    ghost next_gives = { YieldsFirstBy piece_of parts_left };

    ghost remaining = { item_count parts_left };

    fn next(&mut self) -> Option<Part<'a>> {
        let part = self.left?;
        match part.split_once(self.separator) {
            Some((first, behind)) => {
                self.left = Some(behind);
                Some(first)
            }
            None => {
                self.left = None;
                Some(part)
            }
        }
    }
}
