//! Steps over a database in files in memory, whose machine can stop.
//!
//! A fuse forwards the first calls to a file in memory, and fails each later one. When the machine restarts, what was
//! never synced is lost, and the files are opened again.

use crate::databases::{Database, Form, open_beside};
use crate::running::{Located, Setting, located};
use crate::scene::Scene;
use crate::script::Step;
use crate::steps::take_turn;
use crate::texts::Names;
use crate::turns::turns;
use calls::Fault;
use sqlite::{Connection, Files, Options};
use sqlite_disk::{Crash, Disk, Fuse, Memory};
use std::alloc::Global;
use tables::{Storage, Store};

/// The result of steps: where they failed, if they did.
pub(crate) type Taken = Result<(), Located>;

/// A file in memory that may fail.
type Fused = Fuse<Memory>;

/// A database, its log, and its file of contents, which is empty if the contents are rows.
#[derive(Drop)]
pub(crate) struct Disks {
    pub rows: Files<Fused>,
    pub contents: Fused,
}

impl Disks {
    /// Empty files, which never fail.
    fn new(alloc: Global) -> Disks {
        Disks {
            rows: Files {
                log: Fuse::new(Memory::new(alloc), u64::MAX),
                db: Fuse::new(Memory::new(alloc), u64::MAX),
            },
            contents: Fuse::new(Memory::new(alloc), u64::MAX),
        }
    }

    /// Whether no sync of a file has failed.
    pub(crate) fn may_be_used(&self) -> bool {
        self.rows.may_be_used() && self.contents.may_be_used()
    }

    /// The machine restarts: what was never synced is lost.
    pub(crate) fn crash(&mut self) {
        self.rows.log.crash();
        self.rows.db.crash();
        self.contents.crash();
    }
}

/// A file with the same bytes, all of which are synced, that fails after this number of calls.
pub(crate) fn copy_of(alloc: Global, file: &Fused, calls: u64) -> Result<Fused, Fault> {
    let mut copy = Memory::new(alloc);
    if copy.write_at(0, file.inner().bytes()).is_err() || copy.sync().is_err() {
        return Err(Fault::Memory);
    }
    Ok(Fuse::new(copy, calls))
}

/// Takes the steps over the store. Returns the store, unless it had to be closed.
fn take_steps<S: Database>(
    alloc: Global,
    mut store: S,
    scene: &mut Scene,
    names: &mut Names,
    steps: &[Step],
) -> (Option<S>, Taken) {
    scene.begin();
    let turns = match turns(alloc, steps) {
        Ok(turns) => turns,
        Err(fault) => return (Some(store), Err(fault)),
    };
    for turn in turns.iter() {
        let (same, taken) = take_turn(alloc, store, scene, names, turn);
        let taken = located(turn.step.line, taken);
        store = match (same, taken) {
            (Some(same), Ok(())) => same,
            (same, taken) => return (same, taken),
        };
    }
    (Some(store), located(0, scene.expect_ended()))
}

/// What is done with a store: steps, and then those that have to hold if they were taken, or if they failed.
#[derive(Clone, Copy)]
pub(crate) struct Plan<'p> {
    pub work: &'p [Step],
    pub done: &'p [Step],
    pub refused: &'p [Step],
    /// Whether the work is between two marks.
    pub is_marked: bool,
}

impl<'p> Plan<'p> {
    /// Steps alone.
    pub(crate) fn steps(work: &'p [Step]) -> Plan<'p> {
        Plan {
            work,
            done: &[],
            refused: &[],
            is_marked: false,
        }
    }
}

/// What came of a plan: of its work, and of the steps after it.
#[derive(Drop)]
pub(crate) struct Done {
    pub work: Taken,
    pub held: Taken,
}

/// The size, in bytes, of the allocation that marks where a work begins and where it ends, for a test that refuses memory
/// (tests/server/allocations.py).
const MARK: usize = 7_654_321;

/// Allocates the mark.
fn mark(alloc: Global, is_marked: bool) {
    if is_marked {
        let _ = Vec::<u8>::with_capacity(alloc, MARK);
    }
}

/// Does what the plan says over the store. Returns the store, unless it had to be closed.
fn do_plan<S: Database>(
    alloc: Global,
    store: S,
    scene: &mut Scene,
    names: &mut Names,
    plan: Plan<'_>,
) -> (Option<S>, Done) {
    mark(alloc, plan.is_marked);
    let (store, work) = take_steps(alloc, store, scene, names, plan.work);
    mark(alloc, plan.is_marked);
    let Some(store) = store else {
        return (None, Done { work, held: Ok(()) });
    };
    let steps = if work.is_ok() {
        plan.done
    } else {
        plan.refused
    };
    let (store, held) = take_steps(alloc, store, scene, names, steps);
    (store, Done { work, held })
}

/// A connection's options, with room for few pages that were read: a stop takes three connections.
fn small() -> Options {
    let mut options = Options::new(7);
    options.cache_pages = 50;
    options
}

/// Files that could not be opened.
fn unopened() -> Done {
    Done {
        work: Err((0, Fault::Store("to open files"))),
        held: Ok(()),
    }
}

/// Does what the plan says with a database in the form of the setting. Returns what was opened, unless it had to be
/// closed.
fn with_opened<S: Storage + Drop, D: Disk + Drop>(
    setting: Setting<'_>,
    rows: Store<S>,
    contents: D,
    scene: &mut Scene,
    names: &mut Names,
    plan: Plan<'_>,
) -> (Option<(Store<S>, D)>, Done) {
    let alloc = setting.alloc;
    if setting.form == Form::Rows {
        let (rows, done) = do_plan(alloc, rows, scene, names, plan);
        return match rows {
            Some(rows) => (Some((rows, contents)), done),
            None => (None, done),
        };
    }
    match open_beside(alloc, rows, contents) {
        Ok(store) => {
            let (store, done) = do_plan(alloc, store, scene, names, plan);
            match store {
                Some(store) => (Some(store.into_parts()), done),
                None => (None, done),
            }
        }
        Err(_) => (None, unopened()),
    }
}

/// Opens a store over the files, and does what the plan says. Returns the files, after the log was copied into the
/// database if `settles`; none if a file of contents could not be opened, since all files are closed then.
pub(crate) fn with_files(
    setting: Setting<'_>,
    files: Disks,
    scene: &mut Scene,
    names: &mut Names,
    plan: Plan<'_>,
    settles: bool,
) -> (Option<Disks>, Done) {
    let Disks { rows, contents } = files;
    if !contents.may_be_used() {
        return (Some(Disks { rows, contents }), unopened());
    }
    if !rows.may_be_used() {
        return (Some(Disks { rows, contents }), unopened());
    }
    let rows = match Connection::open_files(setting.alloc, rows, small()) {
        Ok(conn) => Store::adopt(conn),
        Err((_, left)) => {
            let rows = left.into_files();
            return (Some(Disks { rows, contents }), unopened());
        }
    };
    let (left, done) = with_opened(setting, rows, contents, scene, names, plan);
    let Some((rows, contents)) = left else {
        return (None, done);
    };
    let mut rows = rows.into_connection().into_store();
    if settles {
        let _ = rows.checkpoint();
    }
    let rows = rows.close();
    (Some(Disks { rows, contents }), done)
}

/// Takes the steps over the files, all of which have to be taken. Returns the files.
pub(crate) fn after_steps(
    setting: Setting<'_>,
    files: Disks,
    scene: &mut Scene,
    names: &mut Names,
    steps: &[Step],
    settles: bool,
) -> Result<Disks, Located> {
    let plan = Plan::steps(steps);
    let (files, done) = with_files(setting, files, scene, names, plan, settles);
    done.work?;
    match files {
        Some(files) => Ok(files),
        None => Err((0, Fault::Script("the files are closed"))),
    }
}

/// The files after the steps that begin each case and these, with nothing in the log; and the scene.
pub(crate) fn files_after(
    setting: Setting<'_>,
    names: &mut Names,
    steps: &[Step],
) -> Result<(Disks, Scene), Located> {
    let mut scene = located(0, Scene::new(setting.alloc, setting.most))?;
    let files = Disks::new(setting.alloc);
    let files = after_steps(setting, files, &mut scene, names, setting.start, false)?;
    let files = after_steps(setting, files, &mut scene, names, steps, true)?;
    Ok((files, scene))
}
