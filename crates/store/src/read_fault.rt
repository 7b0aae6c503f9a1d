//! Why a chunk was not read.

ghost use Rattle.std.specs.Prelude.{◌≡◌};
ghost use Rattle.tables.specs.declared.fault.StoreFault.TheVariants.{Memory as WantsMemory};
ghost use Rattle.store.specs.ReadFaults.{fault_behind};
ghost use Rattle.store.specs.declared.read_fault.ReadFault.TheVariants.{Store as by_store};

use std::alloc::AllocError;
use tables::StoreFault;
use thiserror::Error;

/// Why a chunk was not read. The tables are unchanged.
#[derive(Clone, Copy, Debug, PartialEq, Eq, Error)]
pub enum ReadFault {
    /// The file of contents failed to return the bytes, while it answers other calls.
    #[error("store G2")]
    Unreadable,
    /// The store refused, or memory ran out.
    #[error("{0}")]
    Store(StoreFault),
}

impl From<StoreFault> for ReadFault {
    ghost from_gives = { λ refused fault. fault ≡ by_store refused };

    fn from(fault: StoreFault) -> ReadFault {
        ReadFault::Store(fault)
    }
}

impl From<AllocError> for ReadFault {
    ghost from_gives = { λ _ fault. fault ≡ by_store WantsMemory };

    fn from(_error: AllocError) -> ReadFault {
        ReadFault::Store(StoreFault::Memory)
    }
}

/// For a call that needs the bytes: without them the store refused.
impl From<ReadFault> for StoreFault {
    ghost from_gives = { λ failed fault. fault ≡ fault_behind failed };

    fn from(fault: ReadFault) -> StoreFault {
        match fault {
            ReadFault::Unreadable => StoreFault::Refused,
            ReadFault::Store(fault) => fault,
        }
    }
}
