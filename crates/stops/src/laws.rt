//! From an opening to a stop.

ghost use Rattle.std.specs.Prelude.{◌≡◌, ◌⊎◌, false, ℕ, List, [], ◌∷◌, IsTrue};
ghost use Rattle.sqlite_trees.specs.View.{IsClean};
ghost use Rattle.sqlite_wal.specs.Recovery.{Image};
ghost use Rattle.sqlite_store.specs.FileStore.{state, view};
ghost use Rattle.sqlite.specs.Files.{over_files};
ghost use Rattle.model.specs.World.{World};
ghost use Rattle.model.specs.Bounds.{IsWithin, SameWorld};
ghost use Rattle.model.specs.Laws.{IsHalfDone};
ghost use Rattle.model.specs.Steps.{Run};
ghost use Rattle.tables.specs.Shown.{connection, IsHonest};
ghost use Rattle.store.specs.Database.{alone};
ghost use Rattle.placed.specs.Placed.{beside, database_of, file_of, has_noted_loss};
ghost use Rattle.refinement.specs.Representation.{Holds};
ghost use Rattle.refinement.specs.Left.{From};
ghost use Rattle.refinement.specs.Opening.{HoldsAmong, IsAt};
ghost use Rattle.reopened.specs.Opening.{HoldAmong};
ghost use Rattle.operator.specs.Works.{Work, Works, steps_of, bound_of_works};
ghost use Rattle.stops.specs.Reached.{IsReached, HoldReached, HoldsReached};

use placed::Placed;
use refinement::stop_law;
use sqlite::FileStore;
use sqlite_disk::Disk;
use tables::Store;

/// The program over a file, from its opening to a stop: `opened` is the store as it was opened, and `store` as it was
/// when the process or the machine stopped. The call closes `store`, and the disk has to be honest to its end.
///
/// The files hold one of the worlds that the calls made between the two leave of the opened world; so
/// [`refinement::open_from`] then finds one of them. Such a world is the last one, or that world with one change that the
/// store refused after the last change. If the program was opened in the world of a run from the empty world, `store` held
/// the world of such a run, and the files hold one.
pub fn reopening_law<D: Disk + Drop>(
    opened: &Store<FileStore<D>>,
    store: Store<FileStore<D>>,
) -> FileStore<D>
    ensures stop { (world : World) → IsClean (view result)
        → IsAt (alone over_files) opened.now world
        → (done : Works (alone over_files) opened.now store world)
        → (image : Image) → (state (connection store).store).may_leave image
        → HoldsAmong image (bound_of_works world done.works (world ∷ [])) }
    ensures last { (world kept left : World) (works : List Work) → Run world (steps_of works) kept
        → IsWithin (bound_of_works world works (world ∷ [])) left
        → SameWorld kept left ⊎ IsHalfDone (steps_of works) kept left }
    ensures held { (world : World) → IsReached world → IsHonest over_files store
        → IsAt (alone over_files) opened.now world
        → From (alone over_files) opened.now store (Works (alone over_files) opened.now store)
        → (kept : World) × IsReached kept × Holds (alone over_files) store kept }
    ensures reached { (world : World) → IsReached world → IsClean (view result)
        → IsAt (alone over_files) opened.now world
        → (done : Works (alone over_files) opened.now store world)
        → (image : Image) → (state (connection store).store).may_leave image
        → HoldsReached image }
{
    stop_law(store)
}

/// The same over a database with a file of contents: whatever a stop leaves of each of the three files, together they hold
/// one of those worlds, and [`reopened::open_beside`] then finds one of them. Both disks have to be honest to their ends, and
/// no content may have been noted as lost.
pub fn reopening_law_beside<D: Disk + Drop, C: Disk + Drop>(
    opened: &Placed<Store<FileStore<D>>, C>,
    store: Placed<Store<FileStore<D>>, C>,
) -> (FileStore<D>, C)
    ensures stop { (world : World) → IsClean (view result.0) → IsTrue (C.Disk.is_clean result.1)
        → has_noted_loss store ≡ false
        → IsAt (beside (alone over_files) C.Disk) opened.now world
        → (done : Works (beside (alone over_files) C.Disk) opened.now store world)
        → (image : Image) → (state (connection (database_of store)).store).may_leave image
        → (file : List ℕ) → C.Disk.may_leave (file_of store) file
        → HoldAmong image file (bound_of_works world done.works (world ∷ [])) }
    ensures reached { (world : World) → IsReached world
        → IsClean (view result.0) → IsTrue (C.Disk.is_clean result.1)
        → has_noted_loss store ≡ false
        → IsAt (beside (alone over_files) C.Disk) opened.now world
        → (done : Works (beside (alone over_files) C.Disk) opened.now store world)
        → (image : Image) → (state (connection (database_of store)).store).may_leave image
        → (file : List ℕ) → C.Disk.may_leave (file_of store) file → HoldReached image file }
{
    reopened::stop_law(store)
}
