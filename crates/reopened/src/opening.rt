//! Opens a database with a file of contents: in the world of a new server, or in the one that they hold.

ghost use Rattle.std.specs.Prelude.{◌≡◌, false, List, ℕ, IfOk, IfErr, IsTrue};
ghost use Rattle.sqlite_trees.specs.View.{IsClean};
ghost use Rattle.sqlite_wal.specs.Files.{image_at};
ghost use Rattle.sqlite_wal.specs.Recovery.{Image};
ghost use Rattle.sqlite_store.specs.FileStore.{state, view};
ghost use Rattle.sqlite.specs.Files.{over_files, IsNothing};
ghost use Rattle.model.specs.World.{nothing};
ghost use Rattle.model.specs.Bounds.{Bound};
ghost use Rattle.tables.specs.Shown.{connection, committed, HasNoTable};
ghost use Rattle.store.specs.Database.{alone};
ghost use Rattle.store.specs.Shown.{IsHonest};
ghost use Rattle.placed.specs.Placed.{beside, database_of, file_of, has_noted_loss};
ghost use Rattle.refinement.specs.Left.{IsBoundedBy};
ghost use Rattle.refinement.specs.Opening.{IsAt, IsAtOne};
ghost use Rattle.reopened.specs.Opening.{AreAmongWith, Fails, HoldAmong, IsServedBy};

use crate::fault::BesideFault;
use placed::Placed;
use sqlite::{FileFrom, FileStore, Start};
use sqlite_disk::Disk;
use std::alloc::Global;
use std::rt::HostRuntime;
use tables::{Layout, Storage, Store};

/// Creates the tables of a database that has none of ours, and accepts one that has those of a database whose contents
/// are in a file, with their number; then serves it with this file. The store then holds the world of a new server, or
/// the one that the tables and the file represent, and a stop leaves only that world.
///
/// # Errors
///
/// `Database` as `Store::create_or_check` reports it, which leaves the database unchanged, but if it had none of our
/// tables, a stop may still leave those of a new server; `Contents` as `Placed::open` reports it, which leaves the
/// file, and of the database all but staged uploads whose chunks are in rows. Both are closed.
pub fn start_beside<S: Storage + Drop, D: Disk + Drop>(
    alloc: Global,
    mut rows: Store<S>,
    disk: D,
) -> Result<Placed<Store<S>, D>, BesideFault>
    ensures honest { IfOk result (λ store. IsHonest (beside (alone S.Store) D.Disk) store
        → IsHonest (alone S.Store) rows × IsTrue (D.Disk.is_clean disk)) }
    ensures accepts { IfOk result (IsServedBy S.Store D.Disk rows disk) }
    ensures fresh { HasNoTable S.Store rows
        → IfOk result (λ store. IsAt (beside (alone S.Store) D.Disk) store nothing) }
    ensures again { (bound : Bound)
        → AreAmongWith (committed S.Store rows) (D.Disk.seen disk) bound
        → IfOk result (λ store. IsHonest (beside (alone S.Store) D.Disk) store
        → IsAtOne (beside (alone S.Store) D.Disk) store bound) }
    ensures err { IfErr result (Fails S.Store D.Disk rows disk) }
{
    rows.create_or_check(alloc, Layout::Places)?;
    Ok(Placed::open(alloc, rows, disk)?)
}

/// Opens the database file at the path, and accepts it with this file of contents as [`start_beside`] does. `first`
/// represents the contents of the database file and its log. The store then holds the empty world if the database file
/// is empty or has only the first page of a new database, and one of some worlds if a stop left one of them in the
/// three files.
///
/// # Errors
///
/// Those of `Store::open_from`, as `Database`, and of [`start_beside`].
pub fn open_beside<S: Start, D: Disk + Drop>(
    rt: &HostRuntime,
    path: &str,
    first: S,
    disk: D,
) -> Result<Placed<Store<FileStore<FileFrom<S>>>, D>, BesideFault>
    ensures blank { IsNothing (image_at S.Start)
        → IfOk result (λ store. IsHonest (beside (alone over_files) D.Disk) store
        → IsAt (beside (alone over_files) D.Disk) store nothing) }
    ensures again { (bound : Bound) → HoldAmong (image_at S.Start) (D.Disk.seen disk) bound
        → IfOk result (λ store. IsHonest (beside (alone over_files) D.Disk) store
        → ∥ IsAtOne (beside (alone over_files) D.Disk) store bound ∥₁) }
{
    let rows = Store::open_from(rt, path, first)?;
    start_beside(rt.alloc(), rows, disk)
}

/// A stop leaves of a database over files, and of its file of contents, what together represents one of the worlds of
/// the store's bound, whatever it leaves of each, if no content was noted as lost. The call closes the store, and is about a
/// stop before that; both disks have to be honest to their ends.
pub fn stop_law<D: Disk + Drop, C: Disk + Drop>(
    store: Placed<Store<FileStore<D>>, C>,
) -> (FileStore<D>, C)
    ensures { (bound : Bound) → IsClean (view result.0) → IsTrue (C.Disk.is_clean result.1)
        → has_noted_loss store ≡ false → IsBoundedBy (beside (alone over_files) C.Disk) store bound
        → (image : Image) → (state (connection (database_of store)).store).may_leave image
        → (file : List ℕ) → C.Disk.may_leave (file_of store) file → HoldAmong image file bound }
{
    let (rows, disk) = store.into_parts();
    (rows.into_connection().into_store(), disk)
}
