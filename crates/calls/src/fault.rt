//! Why a line is not as it has to be.

use std::alloc::{AllocError, AllocFailed};
use tables::StoreFault;
use thiserror::Error;

/// Why a script cannot be read, or what differs from it.
#[derive(Debug, Drop, Error)]
pub enum Fault {
    /// There is no memory for the script.
    #[error("no memory")]
    Memory,
    /// The script has a word, a name or a number that means nothing there.
    #[error("{0}")]
    Script(&'static str),
    /// The store refused.
    #[error("the store refused: {0}")]
    Store(&'static str),
    /// The store failed within a connection, which has its first replies, and then the store refusal or a part of a
    /// content.
    #[error("the store failed within the connection")]
    Stopped,
    /// The work was refused, and the store has what there was before it or what there is after it.
    #[error("it was refused, and nothing is lost")]
    Refused,
    /// What was found is not what is wanted.
    #[error("{0}")]
    Differs(String),
}

impl From<AllocError> for Fault {
    fn from(_refused: AllocError) -> Fault {
        Fault::Memory
    }
}

impl<T: Drop> From<AllocFailed<T>> for Fault {
    fn from(_refused: AllocFailed<T>) -> Fault {
        Fault::Memory
    }
}

impl From<StoreFault> for Fault {
    fn from(fault: StoreFault) -> Fault {
        match fault {
            StoreFault::Memory => Fault::Store("for want of memory"),
            StoreFault::Refused => Fault::Store("by the machine or a row"),
        }
    }
}
