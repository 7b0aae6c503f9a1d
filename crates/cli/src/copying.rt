//! The copy of a database into new files of the other layout, which then take its names.

use crate::beside::{
    contents_path, create_like, fault_beside, has_empty_contents, make_contents, open_contents,
    place_fault,
};
use crate::opening::FileTables;
use compared::is_same;
use contents::ContentsFault;
use faults::{ContentsCause, Fault};
use moving::{MoveFault, Progress, continues, copy_rows, copy_to_places, copy_to_rows};
use placed::Placed;
use reopened::start_beside;
use sqlite_disk::Disk;
use std::alloc::Global;
use std::fs::{self, File};
use std::io::{ErrorKind, Stderr, Write};
use std::path::Path;
use std::rt::HostRuntime;
use store::{Listed, Restored};
use tables::{Alter, Layout, OpenFault, Start, Storage, StoreFault, Unknown};

/// What is added to the name of a database, after links, for the copy that is to take its place.
const SUFFIX: &str = "-moving";

/// The objects that are copied so far, on a terminal.
#[derive(Drop)]
struct Shown<'a> {
    terminal: Option<&'a Stderr>,
}

impl Progress for Shown<'_> {
    fn show(&mut self, done: u64, all: u64) {
        if let Some(mut terminal) = self.terminal {
            // Nothing depends on what is shown.
            let _ = write!(terminal, "\r\x1b[Kcopied {done} of {all} objects");
            let _ = terminal.flush();
        }
    }
}

/// Why a copy was not finished.
fn move_fault(fault: MoveFault) -> Fault {
    match fault {
        MoveFault::Store(fault) => Fault::from(fault),
        MoveFault::Contents(ContentsFault::Outside | ContentsFault::Unfinished) => {
            Fault::Contents(ContentsCause::Damaged)
        }
        MoveFault::Contents(ContentsFault::Unusable | ContentsFault::Failed(_)) => {
            Fault::Contents(ContentsCause::Failed)
        }
    }
}

/// The fault of a copy with a file of contents. The explanation of `Contents` is about the file beside the database, and
/// that of `Store` looks for the cause on the disk, which is the copy's too.
fn copy_fault(fault: Fault) -> Fault {
    match fault {
        Fault::Contents(ContentsCause::Damaged) => Fault::Contents(ContentsCause::Damaged),
        Fault::Contents(ContentsCause::NotEmpty) => Fault::Contents(ContentsCause::NotEmpty),
        Fault::Contents(_) => refused(),
        other => other,
    }
}

/// The paths of a database that is copied, after links.
#[derive(Drop)]
pub(crate) struct Paths {
    /// Its file.
    old: String,
    /// The file of the copy.
    new: String,
}

/// Whether there is a file of this name.
fn exists(rt: &HostRuntime, path: &str) -> Result<bool, Fault> {
    match fs::metadata(rt, path) {
        Ok(_) => Ok(true),
        Err(error) if error.kind() == ErrorKind::NotFound => Ok(false),
        Err(_) => Err(refused()),
    }
}

/// A call of the system failed.
fn refused() -> Fault {
    Fault::Store(StoreFault::Refused)
}

/// Gives the file the second name, in place of whatever has it.
fn rename(rt: &HostRuntime, from: &str, to: &str) -> Result<(), Fault> {
    fs::rename(rt, from, to).map_err(|_| refused())
}

/// Removes the file of this name and suffix, if there is one.
fn remove(rt: &HostRuntime, path: &str, suffix: &str) -> Result<(), Fault> {
    let path = format!(in rt.alloc(); "{path}{suffix}")?;
    match fs::remove_file(rt, path.as_str()) {
        Ok(()) => Ok(()),
        Err(error) if error.kind() == ErrorKind::NotFound => Ok(()),
        Err(_) => Err(refused()),
    }
}

/// Copies what the copy does not have yet, with the contents in a file, and compares. Returns the number of objects, and
/// the copy; `None` if the two are not the same.
fn copied_beside<A: Listed, S: Alter + Drop, D: Disk + Drop>(
    alloc: Global,
    old: &mut A,
    mut rows: tables::Store<S>,
    mut disk: D,
    shown: &mut Shown<'_>,
) -> Result<Option<(u64, tables::Store<S>)>, Fault> {
    if !continues(alloc, old, &mut rows)? {
        return Ok(None);
    }
    let count = copy_to_places(alloc, old, &mut rows, &mut disk, shown).map_err(move_fault)?;
    copy_rows(alloc, old, &mut rows)?;
    let mut store = Placed::open(alloc, rows, disk).map_err(place_fault)?;
    if !is_same(alloc, old, &mut store)? {
        return Ok(None);
    }
    let (rows, _) = store.into_parts();
    Ok(Some((count, rows)))
}

/// The same with the contents as rows.
fn copied_rows<A: Listed, B: Listed + Restored>(
    alloc: Global,
    old: &mut A,
    new: &mut B,
    shown: &mut Shown<'_>,
) -> Result<Option<u64>, Fault> {
    if !continues(alloc, old, new)? {
        return Ok(None);
    }
    let count = copy_to_rows(alloc, old, new, shown)?;
    copy_rows(alloc, old, new)?;
    if !is_same(alloc, old, new)? {
        return Ok(None);
    }
    Ok(Some(count))
}

impl Paths {
    /// The paths of a database.
    ///
    /// # Errors
    ///
    /// `Store` if it does not exist; and `Memory`.
    pub(crate) fn new(rt: &HostRuntime, db: &str) -> Result<Paths, Fault> {
        let Ok(real) = fs::canonicalize(rt, db) else {
            return Err(refused());
        };
        let old = real.as_str().to_owned(rt.alloc())?;
        let new = format!(in rt.alloc(); "{old}{SUFFIX}")?;
        Ok(Paths { old, new })
    }

    /// Opens the copy, making it if it does not exist, and gives it the tables of the layout; `None` if it has others, or
    /// its file of contents is missing.
    fn open_copy(
        &self,
        rt: &HostRuntime,
        layout: Layout,
    ) -> Result<Option<FileTables<Unknown>>, Fault> {
        let new = self.new.as_str();
        if !exists(rt, new)? {
            create_like(rt, new, self.old.as_str()).map_err(|_| refused())?;
        }
        let mut copy = tables::Store::open_from(rt, new, Unknown)?;
        if layout == Layout::Places && !self.find_contents(rt, copy.is_new())? {
            return Ok(None);
        }
        match copy.create_or_check(rt.alloc(), layout) {
            Ok(()) => Ok(Some(copy)),
            Err(OpenFault::UnknownSchema) => Ok(None),
            Err(fault) => Err(Fault::from(fault)),
        }
    }

    /// Makes the file of contents of a new copy, which has a use for none that is there. That of another one gets its first
    /// name again, if a run was interrupted that had given it its last. Returns whether there is one.
    ///
    /// # Errors
    ///
    /// `Contents` with `NotEmpty` if the copy is new, and a file of its last name has bytes: no copy has left it, so it may be
    /// that of a database that was lost. `Store`, and other `Contents`, if a call of the system failed; and `Memory`.
    fn find_contents(&self, rt: &HostRuntime, is_new: bool) -> Result<bool, Fault> {
        if is_new {
            has_empty_contents(rt, self.old.as_str())?;
            remove(rt, self.new.as_str(), "-contents")?;
            make_contents(rt, self.new.as_str())?;
            return Ok(true);
        }
        let first = contents_path(rt, self.new.as_str())?;
        if exists(rt, first.as_str())? {
            return Ok(true);
        }
        let last = contents_path(rt, self.old.as_str())?;
        let is_there = exists(rt, last.as_str())?;
        if is_there {
            rename(rt, last.as_str(), first.as_str())?;
        }
        Ok(is_there)
    }

    /// Removes the files of the copy.
    fn remove_copy(&self, rt: &HostRuntime) -> Result<(), Fault> {
        let new = self.new.as_str();
        for suffix in ["-contents", "-contents-wal", "-wal", ""] {
            remove(rt, new, suffix)?;
        }
        Ok(())
    }

    /// Copies what the copy does not have yet, with the contents in a file, and compares. Returns the number of objects;
    /// `None` if the two are not the same.
    fn copy_to_places<A: Listed>(
        &self,
        rt: &HostRuntime,
        old: &mut A,
        shown: &mut Shown<'_>,
    ) -> Result<Option<u64>, Fault> {
        let Some(rows) = self.open_copy(rt, Layout::Places)? else {
            return Ok(None);
        };
        let disk = open_contents(rt, self.new.as_str(), Unknown)?;
        let Some((count, rows)) = copied_beside(rt.alloc(), old, rows, disk, shown)? else {
            return Ok(None);
        };
        rows.close()?;
        Ok(Some(count))
    }

    /// The same with the contents as rows.
    fn copy_to_rows<A: Listed>(
        &self,
        rt: &HostRuntime,
        old: &mut A,
        shown: &mut Shown<'_>,
    ) -> Result<Option<u64>, Fault> {
        let Some(mut rows) = self.open_copy(rt, Layout::Rows)? else {
            return Ok(None);
        };
        let copied = copied_rows(rt.alloc(), old, &mut rows, shown)?;
        rows.close()?;
        Ok(copied)
    }

    /// Copies the database, and compares. A copy of another database, or of an earlier state of this one, is begun anew.
    fn copy<A: Listed>(
        &self,
        rt: &HostRuntime,
        old: &mut A,
        layout: Layout,
        terminal: Option<&Stderr>,
    ) -> Result<u64, Fault> {
        let mut shown = Shown { terminal };
        for _ in 0..2 {
            let copied = match layout {
                Layout::Places => {
                    self.copy_to_places(rt, old, &mut shown)
                        .map_err(copy_fault)?
                }
                Layout::Rows => self.copy_to_rows(rt, old, &mut shown)?,
            };
            if let Some(count) = copied {
                return Ok(count);
            }
            self.remove_copy(rt)?;
        }
        Err(refused())
    }

    /// Removes what interrupted runs left beside a database whose contents are rows: none of it belongs to it.
    ///
    /// # Errors
    ///
    /// `Store` and `Memory`. The database is as it was; what is left of the files is removed by the next run.
    pub(crate) fn remove_left(&self, rt: &HostRuntime) -> Result<(), Fault> {
        remove(rt, self.old.as_str(), "-contents")?;
        self.remove_copy(rt)
    }

    /// Gives the copy the names of the database. Both are closed, so neither needs its log, and a log that stayed would be
    /// read as one of the other database.
    fn take_names(&self, rt: &HostRuntime, layout: Layout) -> Result<(), Fault> {
        let (old, new) = (self.old.as_str(), self.new.as_str());
        let contents = contents_path(rt, old)?;
        if layout == Layout::Places {
            let first = contents_path(rt, new)?;
            rename(rt, first.as_str(), contents.as_str())?;
        }
        remove(rt, old, "-wal")?;
        remove(rt, new, "-wal")?;
        self.sync_names(rt)?;
        rename(rt, new, old)?;
        self.sync_names(rt)?;
        if layout == Layout::Rows {
            remove(rt, old, "-contents")?;
        }
        Ok(())
    }

    /// Has the names of the folder on the disk, in their order.
    fn sync_names(&self, rt: &HostRuntime) -> Result<(), Fault> {
        let folder = Path::new(self.old.as_str()).parent();
        let folder = folder.map_or("/", |folder| folder.as_str());
        let synced = File::open(rt, folder).and_then(|folder| folder.sync_all());
        synced.map_err(|_| refused())
    }

    /// Copies a database whose contents are rows into one with a file of contents, which takes its names. Returns the
    /// number of objects.
    ///
    /// # Errors
    ///
    /// `Store`, `Contents` and `Memory`. The database is as it was; what was copied stays, and the next run goes on.
    pub(crate) fn to_places<S: Start>(
        &self,
        rt: &HostRuntime,
        mut old: FileTables<S>,
        terminal: Option<&Stderr>,
    ) -> Result<u64, Fault> {
        let count = self.copy(rt, &mut old, Layout::Places, terminal)?;
        // They keep its lock: what a server stored before the copy has its name would be lost.
        let files = old.close()?;
        self.take_names(rt, Layout::Places)?;
        drop(files);
        Ok(count)
    }

    /// Copies a database with a file of contents. Returns the number of objects, and the database.
    fn copy_from_places<S: Storage + Drop, D: Disk + Drop>(
        &self,
        rt: &HostRuntime,
        rows: tables::Store<S>,
        disk: D,
        terminal: Option<&Stderr>,
    ) -> Result<(u64, tables::Store<S>), Fault> {
        let mut old = start_beside(rt.alloc(), rows, disk).map_err(fault_beside)?;
        let count = self.copy(rt, &mut old, Layout::Rows, terminal)?;
        let (rows, _) = old.into_parts();
        Ok((count, rows))
    }

    /// The same back.
    ///
    /// # Errors
    ///
    /// `Store`, `Contents` and `Memory`, as above.
    pub(crate) fn to_rows<S: Start, C: Start>(
        &self,
        rt: &HostRuntime,
        rows: FileTables<S>,
        contents: C,
        terminal: Option<&Stderr>,
    ) -> Result<u64, Fault> {
        let disk = open_contents(rt, self.old.as_str(), contents)?;
        let (count, rows) = self.copy_from_places(rt, rows, disk, terminal)?;
        let files = rows.close()?;
        self.take_names(rt, Layout::Rows)?;
        drop(files);
        Ok(count)
    }
}
