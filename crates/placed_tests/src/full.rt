//! Openings over a database whose files refuse each further call, as a full disk refuses each write. The database is so
//! small that its opening has read all of it.

use crate::beside_rows::begun;
use crate::harness::{Tester, unwrap};
use crate::stopped::small;
use placed::PlaceFault;
use reopened::{BesideFault, start_beside};
use sqlite::{Connection, Files};
use sqlite_disk::{Disk, Fuse, Memory};
use store::Store;
use tables::Storage;

/// The log and the file of a database.
type Rows = Files<Fuse<Memory>>;

/// A file with these bytes, all of which are synced, that fails after this number of calls.
fn file_of(rt: &impl Tester, bytes: &[u8], calls: u64) -> Fuse<Memory> {
    let mut file = Memory::new(rt.alloc());
    unwrap(rt, file.write_at(0, bytes));
    unwrap(rt, file.sync());
    Fuse::new(file, calls)
}

/// Copies of the files, of which the log and the database fail after these numbers of calls.
fn copies(rt: &impl Tester, files: &Rows, log: u64, db: u64) -> Rows {
    Files {
        log: file_of(rt, files.log.inner().bytes(), log),
        db: file_of(rt, files.db.inner().bytes(), db),
    }
}

/// Opens the database with an empty file of contents. Returns it with the number of staged uploads.
fn started<S: Storage + Drop>(
    rt: &impl Tester,
    rows: tables::Store<S>,
) -> Result<(tables::Store<S>, usize), BesideFault> {
    let mut store = start_beside(rt.alloc(), rows, Memory::new(rt.alloc()))?;
    let count = unwrap(rt, store.staged_uploads(rt.alloc())).len();
    let (rows, _) = store.into_parts();
    Ok((rows, count))
}

/// Opens the database with an empty file of contents, and stages an upload if it is said whether it has a chunk in a row.
/// Returns the files and how many staged uploads the opening left; `None` if the database alone could not be opened.
fn used(
    rt: &impl Tester,
    files: Rows,
    staged: Option<bool>,
) -> Option<Result<(Rows, usize), BesideFault>> {
    assert!(rt; files.may_be_used());
    let conn = match Connection::open_files(rt.alloc(), files, small()) {
        Ok(conn) => conn,
        Err((_, left)) => {
            let _ = left.into_files();
            return None;
        }
    };
    match started(rt, tables::Store::adopt(conn)) {
        Ok((mut rows, count)) => {
            if let Some(has_chunk) = staged {
                let id = begun(rt, &mut rows, "studio/film", 65_536);
                if has_chunk {
                    unwrap(rt, Store::add_chunk(&mut rows, id, 1, b"a"));
                }
            }
            let mut closing = rows.into_connection().into_store();
            let _ = closing.checkpoint();
            Some(Ok((closing.close(), count)))
        }
        Err(fault) => Some(Err(fault)),
    }
}

/// A new database with a staged upload, which has a chunk in a row if so.
fn made(rt: &impl Tester, has_chunk: bool) -> Rows {
    let empty = Files {
        log: file_of(rt, b"", u64::MAX),
        db: file_of(rt, b"", u64::MAX),
    };
    let (files, _) = unwrap(rt, unwrap(rt, used(rt, empty, Some(has_chunk)).ok_or(())));
    files
}

/// The least number of calls of the log, or of the file, with which the database alone can be opened.
fn least(rt: &impl Tester, files: &Rows, is_log: bool) -> u64 {
    let mut calls = 0u64;
    for step in [1_024u64, 512, 256, 128, 64, 32, 16, 8, 4, 2, 1] {
        let tried = calls.saturating_add(step.saturating_sub(1));
        let log = if is_log { tried } else { u64::MAX };
        let db = if is_log { u64::MAX } else { tried };
        if used(rt, copies(rt, files, log, db), None).is_none() {
            calls = calls.saturating_add(step);
        }
    }
    calls
}

#[test]
fn an_opening_writes_nothing_unless_chunks_of_staged_uploads_are_in_rows(rt: HostRuntime) {
    for (has_chunk, left) in [(false, 1), (true, 0)] {
        let files = made(&rt, has_chunk);
        let (log, db) = (least(&rt, &files, true), least(&rt, &files, false));
        match used(&rt, copies(&rt, &files, log, db), None) {
            Some(Ok((_, count))) => assert_eq!(rt; (has_chunk, count), (false, 1)),
            Some(Err(BesideFault::Contents(PlaceFault::Store(_)))) => assert!(rt; has_chunk),
            _ => panic!(rt; "the opening ends otherwise"),
        }
        let whole = copies(&rt, &files, u64::MAX, u64::MAX);
        let (_, count) = unwrap(&rt, unwrap(&rt, used(&rt, whole, None).ok_or(())));
        assert_eq!(rt; count, left);
    }
}
