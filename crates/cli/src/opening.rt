//! Opens the database, for work over it, or to migrate it.

ghost use Rattle.std.specs.Prelude.{◌≡◌, ⊤, OnOk, Result};
ghost use Rattle.store.specs.declared.state.State.{Ghosts};
ghost use Rattle.model.specs.World.{World};
ghost use Rattle.refinement.specs.Left.{From};
ghost use Rattle.faults.specs.declared.faults.Fault.{Fault};

use crate::beside::{fault_beside, make_contents, open_contents};
use crate::starts::Starts;
use faults::Fault;
use names::Sink;
use reopened::start_beside;
use sqlite::{FileFrom, FileStore};
use sqlite_disk::Disk;
use std::fs::OpenOptions;
use std::os::unix::fs::OpenOptionsExt;
use std::rt::HostRuntime;
use store::Store;
use tables::{Layout, Migrated, OpenFault, Start, Storage};

/// The tables of a database in a file.
pub(crate) type FileTables<S> = tables::Store<FileStore<FileFrom<S>>>;

/// The mode of a new database: only the user of the process may read it. Its log is made with the same mode.
const MODE: u32 = 0o600;

/// What is done with an open database.
pub(crate) trait Work: Drop {
    /// The work led a store that held this world to the other store, and ended so.
    ghost leads: { Self → {S : Type 0} → Ghosts S → (old new : S) → World → Result ⊤ Fault → Type 0 };

    /// The layout of the database if it is new.
    fn layout(&self) -> Layout {
        Layout::Rows
    }

    /// Whether the database is closed afterwards, so that its file holds it without the log.
    fn closes(&self) -> bool;

    /// Does it, and prints what it has to. `Ok` means that all of that was written.
    fn run<S: Store, K: Sink>(self, store: &mut S, output: &mut K) -> Result<(), Fault>
        ensures world { From S.State store.old store.new (λ world.
            leads self S.State store.old store.new world result) }
        ensures good { OnOk result (K.failed output.new ≡ K.failed output.old) };
}

/// Makes the database's file if it does not exist. If that fails, opening the database reports why.
fn make_file(rt: &HostRuntime, db: &str) {
    // Such names are refused when the database is opened.
    if db == ":memory:" || db.starts_with("file:") {
        return;
    }
    let _ = OpenOptions::new()
        .read(true)
        .write(true)
        .create_new(true)
        .mode(MODE)
        .open(rt, db);
}

/// Returns the layout of a database; one that is new gets this one. A database whose contents are rows is accepted, and
/// given its tables if it is new.
fn layout_of<S: Storage>(
    rt: &HostRuntime,
    db: &str,
    store: &mut tables::Store<S>,
    layout: Layout,
) -> Result<Layout, Fault> {
    let alloc = rt.alloc();
    if store.is_new() && layout == Layout::Places {
        make_contents(rt, db)?;
        return Ok(Layout::Places);
    }
    match refinement::start(alloc, store) {
        Ok(()) => Ok(Layout::Rows),
        Err(OpenFault::UnknownSchema) => {
            store.create_or_check(alloc, Layout::Places)?;
            Ok(Layout::Places)
        }
        Err(fault) => Err(Fault::from(fault)),
    }
}

/// Does the work with a database and its file of contents.
fn work_beside<S: Start, D: Disk + Drop, J: Work, K: Sink>(
    rt: &HostRuntime,
    rows: FileTables<S>,
    disk: D,
    work: J,
    output: &mut K,
) -> Result<(), Fault>
    ensures { OnOk result (K.failed output.new ≡ K.failed output.old) }
{
    let closes = work.closes();
    let mut store = start_beside(rt.alloc(), rows, disk).map_err(fault_beside)?;
    let done = work.run(&mut store, output);
    if closes {
        let (rows, _) = store.into_parts();
        let _ = rows.close();
    }
    done
}

/// Opens the database, making it if it does not exist, and does the work with it. If the database could not
/// be closed then, its file and its log hold it together.
///
/// # Errors
///
/// `Store` and `Memory` if it could not be opened, `Contents` if its file of contents could not; and those of the work.
pub(crate) fn open_for<S: Starts, J: Work, K: Sink>(
    rt: &HostRuntime,
    db: &str,
    start: S,
    work: J,
    output: &mut K,
) -> Result<(), Fault>
    ensures { OnOk result (K.failed output.new ≡ K.failed output.old) }
{
    make_file(rt, db);
    let mut store = tables::Store::open_from(rt, db, start)?;
    if layout_of(rt, db, &mut store, work.layout())? == Layout::Places {
        let disk = open_contents(rt, db, S::contents())?;
        return work_beside(rt, store, disk, work, output);
    }
    let closes = work.closes();
    let done = work.run(&mut store, output);
    if closes {
        let _ = store.close();
    }
    done
}

/// Which database `migrate` found.
#[derive(Clone, Copy)]
pub(crate) enum Found {
    /// One that had no table.
    New,
    /// One whose contents are rows.
    Rows(Migrated),
    /// One with a file of contents.
    Places,
}

/// Opens the database, making it if it does not exist, and gives it the tables of version 2, if it has those of version 1
/// or none. One of version 3 is left as it is, and its file of contents is not looked at.
///
/// # Errors
///
/// `UnknownSchema` if it has other tables, `Store` and `Memory`.
pub(crate) fn open_to_migrate<S: Start>(
    rt: &HostRuntime,
    db: &str,
    start: S,
) -> Result<(Found, FileTables<S>), Fault> {
    make_file(rt, db);
    let mut store = tables::Store::open_from(rt, db, start)?;
    let is_new = store.is_new();
    let found = match refinement::migrate(rt.alloc(), &mut store) {
        Ok(_) if is_new => Found::New,
        Ok(migrated) => Found::Rows(migrated),
        Err(OpenFault::UnknownSchema) => {
            store.create_or_check(rt.alloc(), Layout::Places)?;
            Found::Places
        }
        Err(fault) => return Err(Fault::from(fault)),
    };
    Ok((found, store))
}
