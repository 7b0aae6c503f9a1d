//! Why a store is not opened.

ghost use Rattle.std.specs.Prelude.{◌≡◌};
ghost use Rattle.tables.specs.declared.fault.StoreFault.TheVariants.{Memory as WantsMemory};
ghost use Rattle.placed.specs.declared.fault.PlaceFault.TheVariants.{Store as by_store, Contents as by_contents};

use contents::ContentsFault;
use std::alloc::AllocError;
use tables::StoreFault;
use thiserror::Error;

/// Why a database and a file of contents are not opened as a store.
#[derive(Debug, Drop, Error)]
pub enum PlaceFault {
    /// A row that says where a content is names no region of a file, or one without a byte.
    #[error("a row of the database names no region of the file of contents")]
    Unreadable,
    /// Two rows name regions that have bytes in common, or are of one upload.
    #[error("two rows of the database name the same bytes of the file of contents, or are of one upload")]
    Overlapping,
    /// The file ends before a region does.
    #[error("the file of contents is shorter than the database says")]
    Short,
    /// The database refused a call, or memory ran out.
    #[error("{0}")]
    Store(StoreFault),
    /// The file of contents failed.
    #[error("{0}")]
    Contents(ContentsFault),
}

impl From<StoreFault> for PlaceFault {
    ghost from_gives = { λ refused fault. fault ≡ by_store refused };

    fn from(fault: StoreFault) -> PlaceFault {
        PlaceFault::Store(fault)
    }
}

impl From<AllocError> for PlaceFault {
    ghost from_gives = { λ _ fault. fault ≡ by_store WantsMemory };

    fn from(_error: AllocError) -> PlaceFault {
        PlaceFault::Store(StoreFault::Memory)
    }
}

impl From<ContentsFault> for PlaceFault {
    ghost from_gives = { λ failed fault. fault ≡ by_contents failed };

    fn from(fault: ContentsFault) -> PlaceFault {
        PlaceFault::Contents(fault)
    }
}
