//! A database with a file of contents as a store.

ghost use Rattle.std.specs.Prelude.{◌≡◌};
ghost use Rattle.store.specs.Shown.{IsHonest, IsOpen, HasTables, shown};
ghost use Rattle.placed.specs.Placed.{beside, database_of, file_of, HasNoPlace};
ghost use Rattle.placed.specs.View.{renumbered};

use crate::staged::Staged;
use contents::Regions;
use sqlite_disk::Disk;
use std::alloc::Global;
use store::{State, Store};

/// A store of a database and a file of contents. A content as large as a chunk or larger is in the file, and the
/// database has a row that says where.
#[derive(Drop)]
pub struct Placed<T, D> {
    /// The database.
    pub(crate) rows: T,
    /// The file.
    pub(crate) disk: D,
    /// The parts of the file that are in use.
    pub(crate) regions: Regions,
    /// The contents that are being received.
    pub(crate) staged: Vec<Staged>,
    /// How many bytes may have been written to the file since its last sync that succeeded.
    pub(crate) unsynced: u64,
    /// Whether a content was noted as lost.
    pub(crate) has_lost: bool,
    pub(crate) alloc: Global,
}

impl<T: Store, D: Disk> Placed<T, D> {
    /// A store of this database and this file. If the database names no place in a file, the store shows what the
    /// database does, but for the number in `meta`; the file may have any bytes, which are written over.
    pub fn new(alloc: Global, rows: T, disk: D) -> Placed<T, D>
        ensures rows { database_of result ≡ rows }
        ensures disk { file_of result ≡ disk }
        ensures tables { HasTables T.State rows → HasNoPlace T.State rows
            → HasTables (beside T.State D.Disk) result }
        ensures shown { HasTables T.State rows → HasNoPlace T.State rows → IsHonest T.State rows
            → IsOpen T.State rows
            → shown (beside T.State D.Disk) result ≡ renumbered (shown T.State rows) }
    {
        Placed {
            rows,
            disk,
            regions: Regions::new(alloc),
            staged: Vec::new(alloc),
            unsynced: 0,
            has_lost: false,
            alloc,
        }
    }

    /// Returns the database and the file.
    pub fn into_parts(self) -> (T, D)
        ensures rows { result.0 ≡ database_of self }
        ensures disk { result.1 ≡ file_of self }
    {
        (self.rows, self.disk)
    }
}

impl<T: Store, D: Disk> State for Placed<T, D> {
    ghost is_honest = { (beside T.State D.Disk).is_honest };

    ghost is_open = { (beside T.State D.Disk).is_open };

    ghost has_tables = { (beside T.State D.Disk).has_tables };

    ghost shown = { (beside T.State D.Disk).shown };

    ghost leaves = { (beside T.State D.Disk).leaves };

    ghost is_safe = { (beside T.State D.Disk).is_safe };

    ghost is_usable = { (beside T.State D.Disk).is_usable };

    ghost has_room = { (beside T.State D.Disk).has_room };
}
