ghost use Rattle.std.specs.Prelude.{◌≡◌};
ghost use Rattle.tables.specs.Faults.{fault_of};
ghost use Rattle.tables.specs.declared.fault.StoreFault.TheVariants.{Memory as WantsMemory};
ghost use Rattle.tables.specs.declared.fault.OpenFault.TheVariants.{Store as by_store};

use sqlite::{Error, ErrorCode};
use std::alloc::AllocError;

/// Why a call failed. The tables are unchanged.
#[derive(Clone, Copy, Debug, PartialEq, Eq, thiserror::Error)]
pub enum StoreFault {
    /// The store refused: the disk failed, the file is not a database or is in use, or a value does not fit its table.
    #[error("store G2")]
    Refused,
    /// Memory ran out.
    #[error("no memory")]
    Memory,
}

impl From<Error> for StoreFault {
    ghost from_gives = { λ error fault. fault ≡ fault_of error };

    fn from(error: Error) -> StoreFault {
        match error {
            Error::SqliteFailure(ErrorCode::OutOfMemory) => StoreFault::Memory,
            _ => StoreFault::Refused,
        }
    }
}

impl From<AllocError> for StoreFault {
    ghost from_gives = { λ _ fault. fault ≡ WantsMemory };

    fn from(_error: AllocError) -> StoreFault {
        StoreFault::Memory
    }
}

/// Why a database was not opened. It is unchanged.
#[derive(Clone, Copy, Debug, PartialEq, Eq, thiserror::Error)]
pub enum OpenFault {
    /// The database has tables, and they are not this program's.
    #[error("store G1")]
    UnknownSchema,
    /// The store refused, or memory ran out.
    #[error("{0}")]
    Store(StoreFault),
}

impl From<StoreFault> for OpenFault {
    ghost from_gives = { λ refused fault. fault ≡ by_store refused };

    fn from(fault: StoreFault) -> OpenFault {
        OpenFault::Store(fault)
    }
}
