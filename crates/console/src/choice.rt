// Which host answers.
ghost use Rattle.std.specs.Prelude.{◌≡◌};
ghost use Rattle.console.specs.Requests.{standard};

use crate::fault::Fault;
use crate::words::{Word, Words};
use hosts::script::Cue;
use semantics::call::Offered;
use semantics::value::Value;

#[derive(Drop)]
pub enum First {
    Numbers,
    Cells,
}

// Not an `Option` of cues: `None` would not say that cells answer.
#[derive(Drop)]
pub enum Second {
    Cells,
    Script(Vec<Cue>),
}

#[derive(Drop)]
pub enum Choice {
    Numbers,
    Cells,
    Script(Vec<Cue>),
    Switch { first: First, second: Second },
}

// A name, a class and a number, parted by colons.
impl Word for Cue {
    fn read(word: &str) -> Result<Cue, Fault> {
        let (name, value) = word.split_once(':').ok_or(Fault::NotUnderstood)?;
        let name = u32::read(name)?;
        let Offered { class, number } = Offered::read(value)?;
        Ok(Cue {
            name: u8::try_from(name)?,
            value: Value {
                class: u8::try_from(class)?,
                number: i32::try_from(number)?,
            },
        })
    }
}

impl Word for First {
    fn read(word: &str) -> Result<First, Fault> {
        match word {
            "number" => Ok(First::Numbers),
            "cell" => Ok(First::Cells),
            _ => Err(Fault::NotUnderstood),
        }
    }
}

impl Second {
    fn read(mut words: Words<'_>) -> Result<Second, Fault> {
        match words.word()? {
            "cell" => words.end(Second::Cells),
            "script" => Ok(Second::Script(words.rest()?)),
            _ => Err(Fault::NotUnderstood),
        }
    }
}

impl Choice {
    // The host until one is chosen.
    pub fn standard() -> Choice
        ensures { result ≡ standard }
    {
        Choice::Switch {
            first: First::Numbers,
            second: Second::Cells,
        }
    }

    // The host that the words left say.
    pub fn read(mut words: Words<'_>) -> Result<Choice, Fault> {
        match words.word()? {
            "number" => words.end(Choice::Numbers),
            "cell" => words.end(Choice::Cells),
            "script" => Ok(Choice::Script(words.rest()?)),
            "switch" => {
                let first = words.next()?;
                let second = Second::read(words)?;
                Ok(Choice::Switch { first, second })
            }
            _ => Err(Fault::NotUnderstood),
        }
    }
}
