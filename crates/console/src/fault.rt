// Why a line is not carried out.
ghost use Rattle.std.specs.Prelude.{◌≡◌, ◌≢◌};
ghost use Rattle.hex.specs.declared.error.FromHexError.TheVariants.{OutOfMemory};
ghost use Rattle.console.specs.declared.fault.Fault.TheVariants.{NotUnderstood, Io};
ghost use Rattle.console.specs.Faults.{NoMemory};

use hex::FromHexError;
use std::alloc::{AllocError, AllocFailed};
use std::io;
use std::num::{ParseIntError, TryFromIntError};
use std::str::Utf8Error;

#[derive(Drop)]
pub enum Fault {
    // The line is no command.
    NotUnderstood,
    Io(io::Error),
}

// What the library's readers refuse; one impl for all errors would take in the allocator's too.
impl From<Utf8Error> for Fault {
    ghost from_gives = { λ _ r. r ≡ NotUnderstood };

    fn from(_: Utf8Error) -> Fault {
        Fault::NotUnderstood
    }
}

impl From<ParseIntError> for Fault {
    ghost from_gives = { λ _ r. r ≡ NotUnderstood };

    fn from(_: ParseIntError) -> Fault {
        Fault::NotUnderstood
    }
}

impl From<TryFromIntError> for Fault {
    ghost from_gives = { λ _ r. r ≡ NotUnderstood };

    fn from(_: TryFromIntError) -> Fault {
        Fault::NotUnderstood
    }
}

impl From<FromHexError> for Fault {
    ghost from_gives = { λ e r. (e ≡ OutOfMemory → NoMemory r) × (e ≢ OutOfMemory → r ≡ NotUnderstood) };

    fn from(error: FromHexError) -> Fault {
        match error {
            FromHexError::OutOfMemory => AllocError.into(),
            _ => Fault::NotUnderstood,
        }
    }
}

impl From<AllocError> for Fault {
    ghost from_gives = { λ _ r. NoMemory r };

    fn from(error: AllocError) -> Fault {
        Fault::Io(error.into())
    }
}

impl<T: Drop> From<AllocFailed<T>> for Fault {
    ghost from_gives = { λ _ r. NoMemory r };

    fn from(_: AllocFailed<T>) -> Fault {
        Fault::Io(AllocError.into())
    }
}

impl From<io::Error> for Fault {
    ghost from_gives = { λ e r. r ≡ Io e };

    fn from(error: io::Error) -> Fault {
        Fault::Io(error)
    }
}
