//! Why arguments are not a command.

ghost use Rattle.std.specs.Prelude.{◌≡◌};

use std::alloc::AllocError;
use thiserror::Error;

/// Why arguments are not a command.
#[derive(Debug, Drop, Error)]
pub enum ArgsFault {
    /// `clap` rejects them. The text is `clap`'s, with its own line ends.
    #[error("{0}")]
    Rejected(clap::Error),
    /// A value is not valid for its option; this is the option's name.
    #[error("bad value for {0}")]
    Value(&'static str),
    /// The words of a request are those of no command.
    #[error("no command")]
    NoCommand,
    /// Memory ran out.
    #[error("memory ran out")]
    Memory,
}

impl From<clap::Error> for ArgsFault {
    fn from(error: clap::Error) -> ArgsFault {
        match error.kind() {
            clap::error::ErrorKind::OutOfMemory => ArgsFault::Memory,
            _ => ArgsFault::Rejected(error),
        }
    }
}

impl From<AllocError> for ArgsFault {
    ghost use Rattle.command_line.specs.declared.faults.ArgsFault.TheVariants.{Memory};

    ghost from_gives = { λ _ gives. gives ≡ Memory };

    fn from(_refused: AllocError) -> ArgsFault {
        ArgsFault::Memory
    }
}
