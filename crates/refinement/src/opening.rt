//! Opens a database: in the world of a new server, or in the one that it holds.

ghost use Rattle.std.specs.Prelude.{◌≡◌, [], Ok, Err, IfOk, OnErr, OnOk};
ghost use Rattle.sqlite_trees.specs.Objects.{catalog_tree};
ghost use Rattle.sqlite_trees.specs.View.{IsClean};
ghost use Rattle.sqlite_wal.specs.Files.{image_at};
ghost use Rattle.sqlite_wal.specs.Recovery.{Image};
ghost use Rattle.sqlite_store.specs.FileStore.{state, view};
ghost use Rattle.sqlite.specs.Files.{over_files, file_state, IsNothing};
ghost use Rattle.sqlite.specs.Start.{FindsIn};
ghost use Rattle.model.specs.World.{World, IsWorld, nothing};
ghost use Rattle.model.specs.Bounds.{Bound};
ghost use Rattle.tables.specs.Layout.{current};
ghost use Rattle.tables.specs.Shown.{connection, committed, IsHonest, HasNoTable, HasOurs, HasOld, IsForeign, IsUnknown, Rests, AddsFresh, AddsMigrated, shown};
ghost use Rattle.refinement.specs.Representation.{Represents, RepresentedFirst};
ghost use Rattle.tables.specs.declared.fault.OpenFault.TheVariants.{UnknownSchema};
ghost use Rattle.tables.specs.declared.rows.Migrated.TheVariants as Migrated;
ghost use Rattle.store.specs.Database.{alone};
ghost use Rattle.refinement.specs.Left.{IsBoundedBy};
ghost use Rattle.refinement.specs.Opening.{Accepts, AreAmong, HoldsAmong, IsAt, IsAtOne, MigratesBy};

use sqlite::{FileFrom, FileStore, Start};
use sqlite_disk::Disk;
use std::alloc::Global;
use std::rt::HostRuntime;
use tables::{Layout, Migrated, OpenFault, Storage, Store};

/// Creates the tables of a database that has none of ours, and accepts one that has them with their number; any other
/// one, of version 1 or 3 too, is refused. The store then holds the world of a new server, or the one that the tables
/// represent, and a stop leaves only that world.
///
/// # Errors
///
/// Those of `Store::create_or_check`, which leave the database unchanged; if it had none of our tables, a stop may
/// still leave those of a new server.
pub fn start<S: Storage>(alloc: Global, store: &mut Store<S>) -> Result<(), OpenFault>
    ensures honest { IsHonest S.Store store.new → IsHonest S.Store store.old }
    ensures accepts { OnOk result (Accepts S.Store store.old store.new) }
    ensures unknown { IsHonest S.Store store.new → result ≡ Err UnknownSchema
        → IsForeign S.Store current store.old }
    ensures fresh { HasNoTable S.Store store.old
        → OnOk result (IsAt (alone S.Store) store.new nothing) }
    ensures empty { IsHonest S.Store store.new → committed S.Store store.old catalog_tree ≡ []
        → OnOk result (IsAt (alone S.Store) store.new nothing) }
    ensures found { (world : World) → IsWorld world
        → (IsHonest S.Store store.new
        → HasOurs S.Store current store.old × Represents (shown S.Store store.old) world)
        → OnOk result (IsAt (alone S.Store) store.new world) }
    ensures again { IsHonest S.Store store.new → (bound : Bound)
        → AreAmong (committed S.Store store.old) bound
        → OnOk result (IsAtOne (alone S.Store) store.new bound) }
    ensures err { IsHonest S.Store store.new → OnErr result (Rests S.Store store.old store.new) }
    ensures stop { AddsFresh S.Store current store.old store.new }
{
    store.create_or_check(alloc, Layout::Rows)
}

/// Migrates a database of version 1, and treats any other as [`start`] does. The rows of version 1 represent the world
/// that they represent once migrated, in which no name is retired.
///
/// # Errors
///
/// Those of `Store::migrate`, which leave the database unchanged; a stop may still leave the migrated database, or that
/// of a new server.
pub fn migrate<S: Storage>(alloc: Global, store: &mut Store<S>) -> Result<Migrated, OpenFault>
    ensures honest { IsHonest S.Store store.new → IsHonest S.Store store.old }
    ensures migrates { IfOk result (MigratesBy S.Store store.old store.new) }
    ensures unknown { IsHonest S.Store store.new → result ≡ Err UnknownSchema
        → IsUnknown S.Store store.old }
    ensures migrated { IsHonest S.Store store.new → result ≡ Ok Migrated.From1
        → (world : World) → IsWorld world
        → (HasOld S.Store store.old → RepresentedFirst (shown S.Store store.old) world)
        → IsAt (alone S.Store) store.new world }
    ensures fresh { HasNoTable S.Store store.old
        → OnOk result (IsAt (alone S.Store) store.new nothing) }
    ensures found { IsHonest S.Store store.new → result ≡ Ok Migrated.Already
        → (world : World) → IsWorld world
        → HasOurs S.Store current store.old → Represents (shown S.Store store.old) world
        → IsAt (alone S.Store) store.new world }
    ensures err { IsHonest S.Store store.new → OnErr result (Rests S.Store store.old store.new) }
    ensures stop { AddsMigrated S.Store store.old store.new }
{
    store.migrate(alloc)
}

/// Opens the file at the path and accepts its tables as [`start`] does. `first` represents the contents
/// of the file and its log. The store then holds the empty world if the file is empty or has only the
/// first page of a new database, and one of some worlds if a stop left one of them in the file.
///
/// # Errors
///
/// Those of `Store::open_from` and of [`start`].
pub fn open_from<S: Start>(
    rt: &HostRuntime,
    path: &str,
    first: S,
) -> Result<Store<FileStore<FileFrom<S>>>, OpenFault>
    ensures accepts { IfOk result (λ store. IsHonest over_files store
        → (opened : _) × FindsIn (image_at S.Start) (file_state (connection opened))
        × Accepts over_files opened store) }
    ensures blank { IsNothing (image_at S.Start)
        → IfOk result (λ store. IsHonest over_files store → IsAt (alone over_files) store nothing) }
    ensures empty { (image_at S.Start).db ≡ []
        → IfOk result (λ store. IsHonest over_files store → IsAt (alone over_files) store nothing) }
    ensures again { (bound : Bound) → HoldsAmong (image_at S.Start) bound
        → IfOk result (λ store. IsHonest over_files store
        → ∥ IsAtOne (alone over_files) store bound ∥₁) }
{
    let mut store = Store::open_from(rt, path, first)?;
    start(rt.alloc(), &mut store)?;
    Ok(store)
}

/// A stop leaves of a store over files a database whose tables represent one of the worlds of the
/// store's bound. The call closes the store, and is about a stop before that; the disk has to be honest
/// to its end.
pub fn stop_law<D: Disk + Drop>(store: Store<FileStore<D>>) -> FileStore<D>
    ensures { (bound : Bound) → IsClean (view result) → IsBoundedBy (alone over_files) store bound
        → (image : Image) → (state (connection store).store).may_leave image
        → HoldsAmong image bound }
{
    store.into_connection().into_store()
}
