//! A copy into new files of the other layout, whose machine stops at each call of a file in turn. After a restart the
//! copy is continued, and is whole in the end.

use crate::beside_rows::{begun, bytes_of, completed};
use crate::copies::{expect_same, fill_rows};
use crate::harness::{Tester, in_memory, unwrap};
use crate::moved::{nothing, of_rows, stored_small};
use moving::{MoveFault, continues, copy_rows, copy_to_places, copy_to_rows};
use placed::Placed;
use sqlite::{Connection, Files, Options};
use sqlite_disk::{Crash, Fuse, Memory};
use store::{Listed, Store};
use tables::{Completion, LastChunk, Layout, OpenFault, Storage};

/// The number of objects that are copied.
const OBJECTS: usize = 2;

/// More calls than a copy makes of a file.
const MANY: u64 = 2_000;

/// A file of a copy.
#[derive(Clone, Copy, Debug, PartialEq, Eq)]
enum Part {
    Log,
    Database,
    Contents,
}

/// The files of a copy.
#[derive(Drop)]
struct NewFiles {
    database: Files<Fuse<Memory>>,
    contents: Fuse<Memory>,
}

/// An empty file, which fails after this number of calls if it stops.
fn empty_file(rt: &impl Tester, stops: bool, calls: u64) -> Fuse<Memory> {
    let calls = if stops { calls } else { u64::MAX };
    Fuse::new(Memory::new(rt.alloc()), calls)
}

impl NewFiles {
    /// Empty files, of which one fails after this number of calls.
    fn new(rt: &impl Tester, stopped: Part, calls: u64) -> NewFiles {
        NewFiles {
            database: Files {
                log: empty_file(rt, stopped == Part::Log, calls),
                db: empty_file(rt, stopped == Part::Database, calls),
            },
            contents: empty_file(rt, stopped == Part::Contents, calls),
        }
    }

    /// The machine restarts: what was never synced is lost.
    fn crash(&mut self) {
        self.database.log.crash();
        self.database.db.crash();
        self.contents.crash();
    }
}

/// How the files are used.
#[derive(Clone, Copy)]
struct Run {
    layout: Layout,
    /// Whether a file may stop. If none may, the copy has to be done, and is compared.
    may_stop: bool,
}

/// Copies what the new database does not have yet, as `custody migrate` does. Returns how many objects it had.
fn go_on<A: Listed, S: Storage>(
    rt: &impl Tester,
    old: &mut A,
    rows: &mut tables::Store<S>,
    contents: &mut Fuse<Memory>,
    layout: Layout,
) -> Result<usize, MoveFault> {
    let (alloc, mut shown) = (rt.alloc(), nothing());
    match rows.create_or_check(alloc, layout) {
        Err(OpenFault::Store(fault)) => return Err(MoveFault::from(fault)),
        made => unwrap(rt, made),
    }
    assert!(rt; continues(alloc, old, rows)?);
    let had = Listed::all_uploads(rows, alloc)?.len();
    let count = match layout {
        Layout::Places => copy_to_places(alloc, old, rows, contents, &mut shown)?,
        Layout::Rows => copy_to_rows(alloc, old, rows, &mut shown)?,
    };
    assert_eq!(rt; count, OBJECTS as u64);
    copy_rows(alloc, old, rows)?;
    Ok(had)
}

/// Goes on with the copy, and compares it if no file may stop. Returns how many objects it had, if no file has stopped.
fn go_on_or_stop<A: Listed, S: Storage + Drop>(
    rt: &impl Tester,
    old: &mut A,
    mut rows: tables::Store<S>,
    mut contents: Fuse<Memory>,
    run: Run,
) -> (tables::Store<S>, Fuse<Memory>, Option<usize>) {
    let copied = go_on(rt, old, &mut rows, &mut contents, run.layout);
    if run.may_stop {
        return (rows, contents, copied.ok());
    }
    let had = unwrap(rt, copied);
    if run.layout == Layout::Rows {
        expect_same(rt, old, &mut rows, true);
        return (rows, contents, Some(had));
    }
    let mut store = unwrap(rt, Placed::open(rt.alloc(), rows, contents));
    expect_same(rt, old, &mut store, true);
    let (rows, contents) = store.into_parts();
    (rows, contents, Some(had))
}

/// A connection's options, with room for few pages that were read: a stop takes two connections.
pub(crate) fn small() -> Options {
    let mut options = Options::new(7);
    options.cache_pages = 50;
    options
}

/// Opens the new database, goes on with the copy, and closes it. Returns how many objects it had, if no file has
/// stopped.
fn use_files<A: Listed>(
    rt: &impl Tester,
    old: &mut A,
    files: NewFiles,
    run: Run,
) -> (NewFiles, Option<usize>) {
    let NewFiles { database, contents } = files;
    assert!(rt; database.may_be_used());
    match Connection::open_files(rt.alloc(), database, small()) {
        Ok(conn) => {
            let rows = tables::Store::adopt(conn);
            let (rows, contents, had) = go_on_or_stop(rt, old, rows, contents, run);
            let mut closing = rows.into_connection().into_store();
            let is_closed = closing.checkpoint().is_ok();
            let database = closing.close();
            (NewFiles { database, contents }, had.filter(|_| is_closed))
        }
        Err((_, left)) => {
            let database = left.into_files();
            (NewFiles { database, contents }, None)
        }
    }
}

/// Copies into files of which one fails after this number of calls, restarts the machine, and goes on. Returns how many
/// objects the copy had after the restart; `None` if it was done before.
fn stop<A: Listed>(
    rt: &impl Tester,
    old: &mut A,
    layout: Layout,
    stopped: Part,
    calls: u64,
) -> Option<usize> {
    let new = NewFiles::new(rt, stopped, calls);
    let first = Run {
        layout,
        may_stop: true,
    };
    let (mut files, done) = use_files(rt, old, new, first);
    files.crash();
    let last = Run {
        layout,
        may_stop: false,
    };
    let (_, had) = use_files(rt, old, files, last);
    if done.is_some() {
        assert_eq!(rt; had, Some(OBJECTS));
        return None;
    }
    Some(unwrap(rt, had.ok_or(())))
}

/// Stops a copy at each call of a file in turn, until the copy is done before the stop. Returns whether some stop left
/// one object alone.
fn stop_at_each_call<A: Listed>(
    rt: &impl Tester,
    old: &mut A,
    layout: Layout,
    stopped: Part,
) -> bool {
    let mut is_in_midst = false;
    for calls in 0..MANY {
        let Some(had) = stop(rt, old, layout, stopped, calls) else {
            assert!(rt; calls > 0);
            return is_in_midst;
        };
        is_in_midst = is_in_midst || had == 1;
    }
    panic!(rt; "the copy was never done")
}

/// The files that stop, and whether a stop leaves one object alone. Nothing is written into the database's file before
/// the end, when its log is copied.
const TO_PLACES: &[(Part, bool)] = &[
    (Part::Log, true),
    (Part::Database, false),
    (Part::Contents, true),
];

const TO_ROWS: &[(Part, bool)] = &[(Part::Log, true), (Part::Database, false)];

/// Stops a copy at each call of these files.
fn stop_each<A: Listed>(rt: &impl Tester, old: &mut A, layout: Layout, files: &[(Part, bool)]) {
    for &(stopped, is_in_midst) in files {
        assert!(rt;
            stop_at_each_call(rt, old, layout, stopped) == is_in_midst,
            "{stopped:?}"
        );
    }
}

/// Stores a lock, a token, a retired name, an object of five bytes and one of two pieces. What is larger takes longer.
fn store_all(rt: &impl Tester, store: &mut impl Store) {
    fill_rows(rt, store);
    stored_small(rt, store);
    let id = begun(rt, store, "studio/game", 65_539);
    unwrap(rt, store.add_chunk(id, 0, &bytes_of(rt, b'k', 65_536)));
    let last = LastChunk {
        n: 1,
        bytes: bytes_of(rt, b'l', 3),
    };
    let done = completed(rt, store, id, last, 65_539);
    assert_eq!(rt; unwrap(rt, done), Completion::New);
}

#[test]
fn a_copy_that_is_stopped_goes_on(rt: HostRuntime) {
    let mut rows = of_rows(&rt);
    store_all(&rt, &mut rows);
    let mut placed = Placed::new(rt.alloc(), in_memory(&rt), Memory::new(rt.alloc()));
    store_all(&rt, &mut placed);
    stop_each(&rt, &mut rows, Layout::Places, TO_PLACES);
    // The old database is as it was: the other one was filled as it was, and is not copied yet.
    expect_same(&rt, &mut rows, &mut placed, true);
    stop_each(&rt, &mut placed, Layout::Rows, TO_ROWS);
    expect_same(&rt, &mut placed, &mut rows, true);
}
