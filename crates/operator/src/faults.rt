//! Why a task was not done.

ghost use Rattle.std.specs.Prelude.{◌≡◌};

use desk::ForeseeFault;
use std::alloc::AllocError;
use tables::StoreFault;
use thiserror::Error;
use tokens::TokenFault;

/// Why a task was not done, or that its output reports something wrong.
#[derive(Debug, Drop, Error)]
pub enum TaskFault {
    /// The database refused.
    #[error("{0}")]
    Store(StoreFault),
    /// No token was issued (K1, K2).
    #[error("{0}")]
    Token(TokenFault),
    /// No reply is foreseen: the request presents no valid token of the user for the repository.
    #[error("no caller")]
    NoCaller,
    /// The repository has no object of the name, and had none that was removed for good.
    #[error("no such object")]
    NoObject,
    /// Memory ran out.
    #[error("no memory")]
    Memory,
    /// The output could not be written completely.
    #[error("output")]
    Output,
    /// The output reports what is wrong: a path that may not be pushed, or a damaged object.
    #[error("reported")]
    Reported,
}

impl From<StoreFault> for TaskFault {
    ghost use Rattle.operator.specs.Faults.{of_store};

    ghost from_gives = { λ fault gives. gives ≡ of_store fault };

    fn from(fault: StoreFault) -> TaskFault {
        match fault {
            StoreFault::Memory => TaskFault::Memory,
            StoreFault::Refused => TaskFault::Store(fault),
        }
    }
}

impl From<TokenFault> for TaskFault {
    ghost use Rattle.operator.specs.Faults.{of_token};

    ghost from_gives = { λ fault gives. gives ≡ of_token fault };

    fn from(fault: TokenFault) -> TaskFault {
        match fault {
            TokenFault::Store(fault) => TaskFault::from(fault),
            _ => TaskFault::Token(fault),
        }
    }
}

impl From<ForeseeFault> for TaskFault {
    ghost use Rattle.operator.specs.Faults.{of_foresight};

    ghost from_gives = { λ fault gives. gives ≡ of_foresight fault };

    fn from(fault: ForeseeFault) -> TaskFault {
        match fault {
            ForeseeFault::NoCaller => TaskFault::NoCaller,
            ForeseeFault::Memory => TaskFault::Memory,
        }
    }
}

impl From<AllocError> for TaskFault {
    ghost use Rattle.operator.specs.declared.faults.TaskFault.TheVariants.{Memory};

    ghost from_gives = { λ _ gives. gives ≡ Memory };

    fn from(_refused: AllocError) -> TaskFault {
        TaskFault::Memory
    }
}
