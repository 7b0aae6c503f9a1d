//! Stores over files, and the steps that a test takes on a file.
//!
//! The helpers have no clause, so a test's proof does not include those of each call. A function that
//! owns a store over a file takes long to prove: here there is one for each kind of file.

use super::databases::{fill, found, last_locks};
use crate::harness::{Tester, unwrap};
use sqlite::{Connection, Error, File, FileFrom, FileStore, Wary};
use std::alloc::Global;
use std::fs;
use std::rt::HostRuntime;
use tables::{Alter, Layout, Migrated, OpenFault, Storage, Store, StoreFault};

/// A step on a file, with the expected result.
pub(crate) enum Step {
    /// The file is written with this text.
    Write(&'static str),
    /// Another program runs these statements on it.
    Run(&'static str),
    /// Another program finds this number of rows by this query.
    Rows(&'static str, usize),
    /// A store is opened over it, and creates or checks its tables.
    Check(Result<(), OpenFault>),
    /// The same for a file of another schema, which is left unchanged.
    Leave,
    /// A store is opened over it, and migrates it.
    Migrate(Result<Migrated, OpenFault>),
    /// A lock and a token are added.
    Fill,
    /// They are found, with the number of locks made.
    Find(u32, u32, i64),
    /// The ids of the locks on two paths and on the first again.
    Lock(u32, u32, u32),
}

/// Takes a step over an open store.
fn work<S: Storage>(rt: &impl Tester, store: &mut Store<S>, step: &Step) -> Result<(), OpenFault> {
    if let Step::Lock(first, second, again) = step {
        assert!(rt; last_locks(rt, store) == (*first, *second, *again));
        return Ok(());
    }
    if let Step::Migrate(want) = step {
        assert!(rt; store.migrate(rt.alloc()) == *want);
        return Ok(());
    }
    store.create_or_check(rt.alloc(), Layout::Rows)?;
    match step {
        Step::Fill => fill(rt, store),
        Step::Find(id, made, expiry) => {
            assert!(rt; found(rt, store) == (*id, *made, *expiry));
        }
        _ => {}
    }
    Ok(())
}

/// Takes a step over the store, if it was opened.
fn work_on<S: Storage + Drop>(
    rt: &impl Tester,
    opened: Result<Store<S>, StoreFault>,
    step: &Step,
) -> Result<(), OpenFault> {
    let mut store = opened?;
    work(rt, &mut store, step)
}

/// Runs the statements.
fn run<S: Alter>(conn: &mut Connection<S>, sql: &str) -> Result<(), Error> {
    conn.execute_batch(sql)
}

/// Runs the statements on the connection, or counts the rows that a query finds.
fn run_on<S: Alter + Drop>(rt: &impl Tester, opened: Result<Connection<S>, Error>, step: &Step) {
    let mut conn = unwrap(rt, opened);
    match step {
        Step::Run(sql) => unwrap(rt, run(&mut conn, sql)),
        Step::Rows(sql, count) => {
            let rows = unwrap(rt, conn.query_all(sql, &[]));
            assert!(rt; rows.len() == *count, "{sql}");
        }
        _ => {}
    }
}

/// Takes a step over the file.
fn open(rt: &impl Tester, host: &HostRuntime, path: &str, step: &Step) -> Result<(), OpenFault> {
    if let Step::Run(_) | Step::Rows(_, _) = step {
        let opened: Result<Connection<FileStore<File>>, Error> = Connection::open(host, path);
        run_on(rt, opened, step);
        return Ok(());
    }
    let opened: Result<Store<FileStore<FileFrom<Wary>>>, StoreFault> = Store::open_from(
        host, path, Wary,
    );
    work_on(rt, opened, step)
}

/// Asserts that the file is refused for its schema, and left unchanged.
fn expect_left(rt: &impl Tester, host: &HostRuntime, path: &str) {
    let before = unwrap(rt, fs::read(host, path));
    let refused = open(rt, host, path, &Step::Leave);
    assert!(rt; refused == Err(OpenFault::UnknownSchema), "{path}");
    let after = unwrap(rt, fs::read(host, path));
    assert!(rt; before.as_slice() == after.as_slice(), "{path}");
}

/// Takes the step.
fn take(rt: &impl Tester, host: &HostRuntime, path: &str, step: &Step) {
    match step {
        Step::Write(text) => unwrap(rt, fs::write(host, path, *text)),
        Step::Leave => expect_left(rt, host, path),
        Step::Check(want) => {
            assert!(rt; open(rt, host, path, step) == *want, "{path}");
        }
        _ => unwrap(rt, open(rt, host, path, step)),
    }
}

/// Removes the files that a test left, with the log.
fn clear(rt: &impl Tester, host: &HostRuntime, path: &str) {
    let log = unwrap(rt, format!(in rt.alloc(); "{path}-wal"));
    let _ = fs::remove_file(host, path);
    let _ = fs::remove_file(host, log.as_str());
}

/// Takes the steps in order, beginning without a file.
pub(crate) fn take_steps(rt: &impl Tester, host: &HostRuntime, path: &str, steps: &[Step]) {
    clear(rt, host, path);
    for step in steps {
        take(rt, host, path, step);
    }
    clear(rt, host, path);
}
