//! A database in memory, with contents in rows, that has what a store lists.

use calls::Fault;
use names::{Moment, Operation};
use sqlite::{Connection, MemStore};
use sqlite_value::value::ValueRef;
use std::alloc::Global;
use store::{ChunkContent, Listed};
use tables::{
    ChunkKey, Layout, MarkedUpload, RepoLock, RepoRow, RetiredRow, Store, StoreFault, TokenRow,
};

/// The copy.
type Copy = Connection<MemStore>;

/// The number as a value.
fn number(number: u64) -> Result<ValueRef<'static>, Fault> {
    match i64::try_from(number) {
        Ok(number) => Ok(ValueRef::Int(number)),
        Err(_) => Err(Fault::Script("a number of a row has 63 bits")),
    }
}

/// The second of the moment as a value.
fn second(moment: Moment) -> Result<ValueRef<'static>, Fault> {
    number(moment.get())
}

/// The text as a value.
fn text(text: &str) -> ValueRef<'_> {
    ValueRef::Text(text.as_bytes())
}

/// Adds a row.
fn add(copy: &mut Copy, statement: &str, values: &[ValueRef<'_>]) -> Result<(), Fault> {
    match copy.execute(statement, values) {
        Ok(_) => Ok(()),
        Err(_) => Err(Fault::Store("to copy a row that is listed")),
    }
}

fn add_lock(copy: &mut Copy, row: &RepoLock) -> Result<(), Fault> {
    let lock = &row.lock;
    let values = [
        text(row.repo.as_str()),
        ValueRef::Int(i64::from(lock.id.get())),
        text(lock.ref_name.as_str()),
        text(lock.path.as_str()),
        text(lock.owner.as_str()),
        second(lock.moment)?,
    ];
    add(
        copy,
        "INSERT INTO locks VALUES (?1, ?2, ?3, ?4, ?5, ?6)",
        &values,
    )
}

fn add_token(copy: &mut Copy, row: &TokenRow) -> Result<(), Fault> {
    let operation = match row.operation {
        Operation::Download => 1,
        Operation::Upload => 2,
    };
    let values = [
        ValueRef::Blob(&row.digest),
        text(row.user.as_str()),
        text(row.repo.as_str()),
        ValueRef::Int(operation),
        second(row.expires)?,
    ];
    add(
        copy,
        "INSERT INTO tokens VALUES (?1, ?2, ?3, ?4, ?5)",
        &values,
    )
}

fn add_upload(copy: &mut Copy, row: &MarkedUpload) -> Result<(), Fault> {
    let upload = &row.upload;
    let values = [
        ValueRef::Int(upload.id.number()),
        text(upload.repo.as_str()),
        text(upload.oid.text()),
        number(upload.size.get())?,
        ValueRef::Int(i64::from(row.is_complete)),
    ];
    add(
        copy,
        "INSERT INTO uploads VALUES (?1, ?2, ?3, ?4, ?5)",
        &values,
    )
}

/// The chunk of this key, if the store has it.
fn chunk_of<S: Listed>(store: &mut S, key: ChunkKey) -> Result<Option<ChunkContent>, StoreFault> {
    Ok(store.chunk(key.upload, key.n)?)
}

fn add_chunk<S: Listed>(copy: &mut Copy, store: &mut S, key: ChunkKey) -> Result<(), Fault> {
    let Some(content) = chunk_of(store, key)? else {
        return Err(Fault::Script("a chunk that is listed is not found"));
    };
    let values = [
        ValueRef::Int(key.upload.number()),
        ValueRef::Int(i64::from(key.n)),
        ValueRef::Blob(content.bytes()),
    ];
    add(copy, "INSERT INTO chunks VALUES (?1, ?2, ?3)", &values)
}

fn add_repo(copy: &mut Copy, row: &RepoRow) -> Result<(), Fault> {
    let values = [
        text(row.name.as_str()),
        ValueRef::Int(i64::from(row.made)),
        number(row.used)?,
    ];
    add(copy, "INSERT INTO repos VALUES (?1, ?2, ?3)", &values)
}

fn add_retired(copy: &mut Copy, row: &RetiredRow) -> Result<(), Fault> {
    let values = [text(row.repo.as_str()), text(row.oid.text())];
    add(copy, "INSERT INTO retired VALUES (?1, ?2)", &values)
}

/// Adds the repositories, and the names that they retired.
fn add_repos<S: Listed>(alloc: Global, copy: &mut Copy, store: &mut S) -> Result<(), Fault> {
    for row in store.all_repos(alloc)?.iter() {
        add_repo(copy, row)?;
    }
    for row in store.all_retired(alloc)?.iter() {
        add_retired(copy, row)?;
    }
    Ok(())
}

/// Adds the locks and the tokens.
fn add_locks<S: Listed>(alloc: Global, copy: &mut Copy, store: &mut S) -> Result<(), Fault> {
    for row in store.all_locks(alloc)?.iter() {
        add_lock(copy, row)?;
    }
    for row in store.all_tokens(alloc)?.iter() {
        add_token(copy, row)?;
    }
    Ok(())
}

/// Adds the uploads, and their chunks by upload and number.
fn add_uploads<S: Listed>(alloc: Global, copy: &mut Copy, store: &mut S) -> Result<(), Fault> {
    for row in store.all_uploads(alloc)?.iter() {
        add_upload(copy, row)?;
    }
    let mut keys = store.chunk_keys(alloc)?;
    keys.sort_unstable_by_key(|key| (key.upload.number(), key.n));
    for key in keys.iter() {
        add_chunk(copy, store, *key)?;
    }
    Ok(())
}

/// A database that has what the store lists.
///
/// # Errors
///
/// `Store` and `Memory`; `Script` if a chunk that is listed is not found.
pub(crate) fn copy_listed<S: Listed>(alloc: Global, store: &mut S) -> Result<Copy, Fault> {
    let mut rows = Store::open_memory(alloc)?;
    let _ = calls::create(alloc, &mut rows, Layout::Rows)?;
    let mut copy = rows.into_connection();
    add_repos(alloc, &mut copy, store)?;
    add_locks(alloc, &mut copy, store)?;
    add_uploads(alloc, &mut copy, store)?;
    Ok(copy)
}
