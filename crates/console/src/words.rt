// The words of a command, parted by single blanks, and what can stand for one.
use crate::fault::Fault;
use semantics::call::Offered;
use std::alloc::Global;
use std::str::Split;

// Not `FromStr`: that of a number takes a plus and leading zeros, and other crates' types have none.
pub trait Word: Sized {
    fn read(word: &str) -> Result<Self, Fault>;
}

// Whether the word begins as decimal digits do, with no 0 in front of others.
fn plain(word: &str) -> bool {
    matches!(word.as_bytes(), [b'0'] | [b'1'..=b'9', ..])
}

// Whether the word has hexadecimal digits alone, and some.
fn is_hexadecimal(word: &str) -> bool {
    !word.is_empty() && word.bytes().all(|byte| byte.is_ascii_hexdigit())
}

impl Word for u32 {
    fn read(word: &str) -> Result<u32, Fault> {
        if !plain(word) {
            return Err(Fault::NotUnderstood);
        }
        Ok(word.parse()?)
    }
}

// The length of a buffer.
impl Word for u16 {
    fn read(word: &str) -> Result<u16, Fault> {
        Ok(u16::try_from(u32::read(word)?)?)
    }
}

// With or without a minus; 0 has none.
impl Word for i64 {
    fn read(word: &str) -> Result<i64, Fault> {
        let digits = word.strip_prefix('-').unwrap_or(word);
        if !plain(digits) || word == "-0" {
            return Err(Fault::NotUnderstood);
        }
        Ok(word.parse()?)
    }
}

// A class, a colon and a number.
impl Word for Offered {
    fn read(word: &str) -> Result<Offered, Fault> {
        let (class, number) = word.split_once(':').ok_or(Fault::NotUnderstood)?;
        Ok(Offered {
            class: u32::read(class)?,
            number: i64::read(number)?,
        })
    }
}

// The words that are still to be taken.
#[derive(Drop)]
pub struct Words<'a> {
    heap: Global,
    left: Split<'a, char>,
}

impl<'a> Words<'a> {
    pub fn new(heap: Global, line: &'a str) -> Words<'a> {
        Words {
            heap,
            left: line.split(' '),
        }
    }

    pub fn word(&mut self) -> Result<&'a str, Fault> {
        self.left.next().ok_or(Fault::NotUnderstood)
    }

    // What the next word stands for.
    pub fn next<T: Word>(&mut self) -> Result<T, Fault> {
        T::read(self.word()?)
    }

    // Numbers parted by commas; a minus for none.
    pub fn numbers(&mut self) -> Result<Vec<u32>, Fault> {
        match self.word()? {
            "-" => Ok(Vec::new(self.heap)),
            word => word.split(',').map(u32::read).try_collect(self.heap),
        }
    }

    // Bytes in hexadecimal; a minus for none. `decode` asks for memory before it looks at a digit, so the digits are looked at here first.
    pub fn bytes(&mut self) -> Result<Vec<u8>, Fault> {
        match self.word()? {
            "-" => Ok(Vec::new(self.heap)),
            word if is_hexadecimal(word) => Ok(hex::decode(self.heap, word)?),
            _ => Err(Fault::NotUnderstood),
        }
    }

    // What each of the words left stands for.
    pub fn rest<T: Word + Drop>(self) -> Result<Vec<T>, Fault> {
        let Words { heap, left } = self;
        let mut rest = Vec::new(heap);
        // Not a `map`: no proof covers one by a function whose result is of a type parameter.
        for word in left {
            rest.push(T::read(word)?)?;
        }
        Ok(rest)
    }

    // The command, if no word is left.
    pub fn end<T: Drop>(self, command: T) -> Result<T, Fault> {
        let Words { mut left, .. } = self;
        match left.next() {
            Some(_) => Err(Fault::NotUnderstood),
            None => Ok(command),
        }
    }

    // What the only word left stands for.
    pub fn only<T: Word + Drop>(mut self) -> Result<T, Fault> {
        let word = self.next()?;
        self.end(word)
    }

    // What the two words left stand for.
    pub fn pair<A: Word + Drop, B: Word + Drop>(mut self) -> Result<(A, B), Fault> {
        let first = self.next()?;
        let second = self.next()?;
        self.end((first, second))
    }
}
