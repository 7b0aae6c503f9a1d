//! The two forms of a database: its contents are rows, or the larger ones are in a file beside it.

use crate::copies::copy_listed;
use calls::{Fault, create, migrate};
use placed::Placed;
use reopened::start_beside;
use sqlite::{Connection, MemStore, Row};
use sqlite_disk::{Disk, Memory};
use std::alloc::Global;
use store::Listed;
use tables::{Alter, Layout, OpenFault, Storage, Store};

/// Where a database has the contents of objects.
#[derive(Clone, Copy, PartialEq, Eq)]
pub(crate) enum Form {
    /// In rows: version 2.
    Rows,
    /// The larger ones in a file: version 3.
    File,
}

impl Form {
    /// The form of this word.
    pub(crate) fn read(word: &str) -> Option<Form> {
        match word {
            "rows" => Some(Form::Rows),
            "file" => Some(Form::File),
            _ => None,
        }
    }

    /// The word of the form.
    pub(crate) fn word(self) -> &'static str {
        match self {
            Form::Rows => "rows",
            Form::File => "file",
        }
    }
}

/// A store, which is gone if it had to be closed; and an answer.
pub(crate) type With<S, T> = (Option<S>, Result<T, Fault>);

/// A store of a case, in one of the two forms.
pub(crate) trait Database: Listed + Drop {
    /// Creates or checks its tables. Returns the line of the call.
    fn with_tables(self, alloc: Global) -> With<Self, String>;

    /// Gives tables of version 1 those of version 2. Returns the line of the call.
    fn migrated(self, alloc: Global) -> With<Self, String>;

    /// Runs the statements of another program.
    fn changed(self, alloc: Global, statements: &str) -> With<Self, ()>;

    /// The rows of a query. A content in a file has the rows that it has without one.
    fn rows(self, alloc: Global, query: &str) -> With<Self, Vec<Row>>;
}

/// Runs the statements.
fn run<S: Alter>(conn: &mut Connection<S>, statements: &str) -> Result<(), Fault> {
    match conn.execute_batch(statements) {
        Ok(()) => Ok(()),
        Err(_) => Err(Fault::Store("a statement")),
    }
}

/// The rows of the query.
fn query_rows<S: Alter>(conn: &mut Connection<S>, query: &str) -> Result<Vec<Row>, Fault> {
    match conn.query_all(query, &[]) {
        Ok(rows) => Ok(rows),
        Err(_) => Err(Fault::Store("a query")),
    }
}

impl<S: Storage + Drop> Database for Store<S> {
    fn with_tables(mut self, alloc: Global) -> With<Store<S>, String> {
        let made = create(alloc, &mut self, Layout::Rows);
        (Some(self), made)
    }

    fn migrated(mut self, alloc: Global) -> With<Store<S>, String> {
        let made = migrate(alloc, &mut self);
        (Some(self), made)
    }

    fn changed(self, _alloc: Global, statements: &str) -> With<Store<S>, ()> {
        let mut conn = self.into_connection();
        let done = run(&mut conn, statements);
        (Some(Store::adopt(conn)), done)
    }

    fn rows(self, _alloc: Global, query: &str) -> With<Store<S>, Vec<Row>> {
        let mut conn = self.into_connection();
        let found = query_rows(&mut conn, query);
        (Some(Store::adopt(conn)), found)
    }
}

/// Opens a database with its file of contents, as the program does. One that has none of our tables, or other ones, is
/// not opened: no call but `with_tables` succeeds with it.
///
/// # Errors
///
/// `Store`: both are closed.
pub(crate) fn open_beside<S: Storage + Drop, D: Disk + Drop>(
    alloc: Global,
    mut rows: Store<S>,
    disk: D,
) -> Result<Placed<Store<S>, D>, Fault> {
    if rows.is_new() {
        return Ok(Placed::new(alloc, rows, disk));
    }
    match rows.create_or_check(alloc, Layout::Places) {
        Ok(()) => {}
        Err(OpenFault::UnknownSchema) => return Ok(Placed::new(alloc, rows, disk)),
        Err(OpenFault::Store(fault)) => return Err(Fault::from(fault)),
    }
    match start_beside(alloc, rows, disk) {
        Ok(store) => Ok(store),
        Err(_) => Err(Fault::Store("to open a file of contents")),
    }
}

/// Whether a call succeeded, and printed nothing.
fn is_silent(made: &Result<String, Fault>) -> bool {
    match made {
        Ok(line) => line.is_empty(),
        Err(_) => false,
    }
}

/// Creates or checks the tables of a database that is not open, and opens it if it had them.
fn start<S: Storage + Drop, D: Disk + Drop>(
    alloc: Global,
    mut rows: Store<S>,
    disk: D,
) -> With<Placed<Store<S>, D>, String> {
    let is_new = rows.is_new();
    let made = create(alloc, &mut rows, Layout::Places);
    if is_new || !is_silent(&made) {
        return (Some(Placed::new(alloc, rows, disk)), made);
    }
    match open_beside(alloc, rows, disk) {
        Ok(store) => (Some(store), made),
        Err(fault) => (None, Err(fault)),
    }
}

impl<S: Storage + Drop, D: Disk + Drop> Database for Placed<Store<S>, D> {
    fn with_tables(mut self, alloc: Global) -> With<Placed<Store<S>, D>, String> {
        // An opening forgets what was received of staged uploads, so a store that is open is left so.
        if self.all_repos(alloc).is_ok() {
            return (Some(self), Ok(String::new(alloc)));
        }
        let (rows, disk) = self.into_parts();
        start(alloc, rows, disk)
    }

    fn migrated(self, _alloc: Global) -> With<Placed<Store<S>, D>, String> {
        let fault = Fault::Script("a database with a file of contents is not migrated");
        (Some(self), Err(fault))
    }

    fn changed(self, alloc: Global, statements: &str) -> With<Placed<Store<S>, D>, ()> {
        let (rows, disk) = self.into_parts();
        let mut conn = rows.into_connection();
        let done = run(&mut conn, statements);
        match open_beside(alloc, Store::adopt(conn), disk) {
            Ok(store) => (Some(store), done),
            Err(fault) => (None, Err(fault)),
        }
    }

    fn rows(mut self, alloc: Global, query: &str) -> With<Placed<Store<S>, D>, Vec<Row>> {
        let found = match copy_listed(alloc, &mut self) {
            Ok(mut conn) => query_rows(&mut conn, query),
            Err(fault) => Err(fault),
        };
        (Some(self), found)
    }
}

/// A store that can be made in memory.
pub(crate) trait InMemory {
    /// One without tables.
    fn new(alloc: Global) -> Result<Self, Fault>;
}

impl InMemory for Store<MemStore> {
    fn new(alloc: Global) -> Result<Store<MemStore>, Fault> {
        Ok(Store::open_memory(alloc)?)
    }
}

impl InMemory for Placed<Store<MemStore>, Memory> {
    fn new(alloc: Global) -> Result<Placed<Store<MemStore>, Memory>, Fault> {
        let rows = Store::open_memory(alloc)?;
        Ok(Placed::new(alloc, rows, Memory::new(alloc)))
    }
}
