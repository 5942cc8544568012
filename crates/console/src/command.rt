// The commands, one a line.
ghost use Rattle.std.specs.Prelude.{◌≡◌, ℕ};
ghost use Rattle.session.specs.CallMeaning.{call_of};
ghost use Rattle.console.specs.Requests.{request_of};

use crate::choice::Choice;
use crate::fault::Fault;
use crate::words::{Word, Words};
use semantics::call::{Kind, Offered};
use session::call::Call;
use std::alloc::Global;
use std::str::from_utf8;

#[derive(Clone, Copy)]
pub enum Table {
    Climbing,
    Masks,
}

// The text of a call: the lines behind the command, or bytes in the command itself.
// Not an `Option` of bytes: `None` would not say that lines follow.
#[derive(Drop)]
pub enum Text {
    Block,
    Bytes(Vec<u8>),
}

// A call whose numbers all stand in the line. Not a `Call`, which borrows its lists: here they are owned.
#[derive(Drop)]
pub enum Request {
    Class {
        parent: u32,
    },
    Native {
        class: u32,
        name: u32,
        arguments: Vec<u32>,
        result: u32,
    },
    Start {
        receiver: Offered,
        name: u32,
        arguments: Vec<Offered>,
    },
    Go {
        steps: u32,
    },
}

#[derive(Drop)]
pub enum Command {
    Card { kind: Kind, table: Table },
    Host(Choice),
    Call(Request),
    Load(Text),
    Fill { room: u16, text: Text },
    Write { row: u32, room: u16 },
    Fits { a: u32, b: u32 },
    Join { a: u32, b: u32 },
}

impl Request {
    // The call; it asks for no buffer. A method, as `as_str` is: what it gives borrows from the request.
    pub fn call(&self) -> Call<'_>
        ensures { (room : ℕ) → call_of room result ≡ request_of self.now }
    {
        match self {
            Request::Class { parent } => Call::Class { parent: *parent },
            Request::Native {
                class,
                name,
                arguments,
                result,
            } => Call::Native {
                class: *class,
                name: *name,
                arguments: arguments.as_slice(),
                result: *result,
            },
            Request::Start {
                receiver,
                name,
                arguments,
            } => Call::Start {
                receiver: *receiver,
                name: *name,
                arguments: arguments.as_slice(),
            },
            Request::Go { steps } => Call::Go { steps: *steps },
        }
    }
}

impl Word for Kind {
    fn read(word: &str) -> Result<Kind, Fault> {
        match word {
            "issue" => Ok(Kind::Issue),
            "bench" => Ok(Kind::Bench),
            _ => Err(Fault::NotUnderstood),
        }
    }
}

impl Word for Table {
    fn read(word: &str) -> Result<Table, Fault> {
        match word {
            "climbing" => Ok(Table::Climbing),
            "masks" => Ok(Table::Masks),
            _ => Err(Fault::NotUnderstood),
        }
    }
}

impl Request {
    fn native(mut words: Words<'_>) -> Result<Request, Fault> {
        let class = words.next()?;
        let name = words.next()?;
        let arguments = words.numbers()?;
        let result = words.only()?;
        Ok(Request::Native {
            class,
            name,
            arguments,
            result,
        })
    }

    fn start(mut words: Words<'_>) -> Result<Request, Fault> {
        let receiver = words.next()?;
        let name = words.next()?;
        let arguments = words.rest()?;
        Ok(Request::Start {
            receiver,
            name,
            arguments,
        })
    }
}

impl Text {
    fn read(mut words: Words<'_>) -> Result<Text, Fault> {
        let bytes = words.bytes()?;
        words.end(Text::Bytes(bytes))
    }
}

impl Command {
    // The command that a line says.
    pub fn read(heap: Global, line: &[u8]) -> Result<Command, Fault> {
        let mut words = Words::new(heap, from_utf8(line)?);
        let command = match words.word()? {
            "card" => {
                let (kind, table) = words.pair()?;
                Command::Card { kind, table }
            }
            "host" => Command::Host(Choice::read(words)?),
            "class" => {
                let parent = words.only()?;
                Command::Call(Request::Class { parent })
            }
            "native" => Command::Call(Request::native(words)?),
            "load" => words.end(Command::Load(Text::Block))?,
            "loadhex" => Command::Load(Text::read(words)?),
            "fill" => {
                let room = words.only()?;
                let text = Text::Block;
                Command::Fill { room, text }
            }
            "fillhex" => {
                let room = words.next()?;
                let text = Text::read(words)?;
                Command::Fill { room, text }
            }
            "start" => Command::Call(Request::start(words)?),
            "go" => {
                let steps = words.only()?;
                Command::Call(Request::Go { steps })
            }
            "write" => {
                let (row, room) = words.pair()?;
                Command::Write { row, room }
            }
            "fits" => {
                let (a, b) = words.pair()?;
                Command::Fits { a, b }
            }
            "join" => {
                let (a, b) = words.pair()?;
                Command::Join { a, b }
            }
            _ => return Err(Fault::NotUnderstood),
        };
        Ok(command)
    }
}
