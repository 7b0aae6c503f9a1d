//! Why a copy was not finished.

use contents::ContentsFault;
use std::alloc::AllocError;
use store::ReadFault;
use tables::StoreFault;

/// Why a copy was not finished. What was copied stays, and is not copied again.
#[derive(Debug, Drop, thiserror::Error)]
pub enum MoveFault {
    /// A call of one of the databases failed.
    #[error("{0}")]
    Store(StoreFault),
    /// The file of contents failed, or an object has more or fewer bytes than its size says.
    #[error("{0}")]
    Contents(ContentsFault),
}

impl From<StoreFault> for MoveFault {
    fn from(fault: StoreFault) -> MoveFault {
        MoveFault::Store(fault)
    }
}

impl From<ReadFault> for MoveFault {
    fn from(fault: ReadFault) -> MoveFault {
        MoveFault::Store(fault.into())
    }
}

impl From<ContentsFault> for MoveFault {
    fn from(fault: ContentsFault) -> MoveFault {
        MoveFault::Contents(fault)
    }
}

impl From<AllocError> for MoveFault {
    fn from(_error: AllocError) -> MoveFault {
        MoveFault::Store(StoreFault::Memory)
    }
}
