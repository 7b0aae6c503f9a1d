//! Why a database and a file of contents are not opened.

ghost use Rattle.std.specs.Prelude.{◌≡◌};
ghost use Rattle.tables.specs.declared.fault.OpenFault.TheVariants.{Store as by_store};
ghost use Rattle.reopened.specs.declared.fault.BesideFault.TheVariants.{Database as by_database, Contents as by_contents};

use placed::PlaceFault;
use tables::{OpenFault, StoreFault};
use thiserror::Error;

/// Why a database and a file of contents are not opened.
#[derive(Debug, Drop, Error)]
pub enum BesideFault {
    /// The database is not one whose contents are in a file, or a call of it failed.
    #[error("{0}")]
    Database(OpenFault),
    /// The database is not served with this file.
    #[error("{0}")]
    Contents(PlaceFault),
}

impl From<OpenFault> for BesideFault {
    ghost from_gives = { λ refused fault. fault ≡ by_database refused };

    fn from(fault: OpenFault) -> BesideFault {
        BesideFault::Database(fault)
    }
}

impl From<StoreFault> for BesideFault {
    ghost from_gives = { λ refused fault. fault ≡ by_database (by_store refused) };

    fn from(fault: StoreFault) -> BesideFault {
        BesideFault::Database(OpenFault::Store(fault))
    }
}

impl From<PlaceFault> for BesideFault {
    ghost from_gives = { λ refused fault. fault ≡ by_contents refused };

    fn from(fault: PlaceFault) -> BesideFault {
        BesideFault::Contents(fault)
    }
}
