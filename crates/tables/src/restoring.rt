//! The calls that add rows as they are, for a copy of a database.

ghost use Rattle.std.specs.Prelude.{◌≡◌, ⊤, pos, false, IfOk};
ghost use Rattle.names.specs.Names.{repo_text};
ghost use Rattle.tables.specs.Statements.{with_lock, with_counts, with_retired};
ghost use Rattle.tables.specs.Calls.{Says, Does, Transacts};
ghost use Rattle.tables.specs.Steps.{asked_lock};
ghost use Rattle.tables.specs.Staging.{upload_number};
ghost use Rattle.tables.specs.Restoring.{has_upload, restored_upload, with_upload_at, with_restored};
ghost use Rattle.tables.specs.Shown.{Changes};

use crate::Store;
use crate::chunks::chunk_into;
use crate::fault::StoreFault;
use crate::locks::lock_into;
use crate::new_rows::{NewChunk, NewLock, NewUpload};
use crate::retiring::name_into;
use crate::rows::UploadId;
use crate::uploads::bytes_of;
use crate::write::{change, finish_with};
use names::{LockId, Oid, RepoName};
use sqlite::{Alter, Connection, Error, Transaction, params};

/// The number as a column has it, which is refused if no column holds it.
fn signed(number: u64) -> Result<i64, StoreFault>
    ensures { IfOk result (λ n. n ≡ pos number) }
{
    i64::try_from(number).map_err(|_| StoreFault::Refused)
}

// ---- in a transaction

fn counts_into<S: Alter>(
    tx: &mut Transaction<'_, S>,
    repo: &RepoName,
    made: u32,
    used: i64,
) -> Result<usize, Error>
    ensures same_reference { tx.new.conn.ghost_name ≡ tx.old.conn.ghost_name }
    ensures does { Does S.Store tx.old.conn.now tx.new.conn.now result
        (with_counts (repo_text repo.now) (pos made) used) }
{
    change(
        tx,
        "INSERT INTO repos (name, made, used) VALUES (?1, ?2, ?3)",
        params![repo.as_str(), made, used],
    )
}

/// Adds a complete upload under this id.
fn object_row_into<S: Alter>(
    tx: &mut Transaction<'_, S>,
    object: &NewUpload<'_>,
    id: UploadId,
) -> Result<usize, Error>
    ensures same_reference { tx.new.conn.ghost_name ≡ tx.old.conn.ghost_name }
    ensures value { Says S.Store tx.old.conn.now tx.new.conn.now result
        (λ t _. has_upload (upload_number id) t ≡ false) }
    ensures does { Does S.Store tx.old.conn.now tx.new.conn.now result
        (with_upload_at (restored_upload object.now (upload_number id))) }
{
    tx.execute(
        "INSERT INTO uploads (id, repo, oid, size, done) VALUES (?1, ?2, ?3, ?4, 1)",
        params![
            id.number,
            object.repo.as_str(),
            object.oid.text(),
            bytes_of(object.size)
        ],
    )
}

/// Adds an object under this id, with this chunk if it is given.
fn object_into<S: Alter>(
    tx: &mut Transaction<'_, S>,
    object: &NewUpload<'_>,
    id: UploadId,
    chunk: Option<NewChunk<'_>>,
) -> Result<(), Error>
    ensures same_reference { tx.new.conn.ghost_name ≡ tx.old.conn.ghost_name }
    ensures value { Says S.Store tx.old.conn.now tx.new.conn.now result
        (λ t _. has_upload (upload_number id) t ≡ false) }
    ensures does { Does S.Store tx.old.conn.now tx.new.conn.now result
        (with_restored object.now (upload_number id) chunk.entry) }
{
    object_row_into(tx, object, id)?;
    let Some(chunk) = chunk else {
        return Ok(());
    };
    chunk_into(tx, id, chunk.n, chunk.bytes)?;
    Ok(())
}

// ---- one transaction

#[tactic(auto, using(crate::proofs::Calls::led))]
fn restore_repo<S: Alter>(
    conn: &mut Connection<S>,
    repo: &RepoName,
    made: u32,
    used: u64,
) -> Result<(), StoreFault>
    ensures { Transacts S.Store conn.old conn.new result
        (with_counts (repo_text repo.now) (pos made) (pos used)) (λ _ _. ⊤) }
{
    if !conn.is_autocommit() {
        return Err(StoreFault::Refused);
    }
    let used = signed(used)?;
    let mut tx = conn.transaction();
    counts_into(&mut tx, repo, made, used)?;
    finish_with(tx, ())
}

#[tactic(auto, using(crate::proofs::Calls::led))]
fn restore_lock<S: Alter>(
    conn: &mut Connection<S>,
    lock: &NewLock<'_>,
    id: LockId,
) -> Result<(), StoreFault>
    ensures { Transacts S.Store conn.old conn.new result
        (with_lock (record (asked_lock lock.now) { id = pos id })) (λ _ _. ⊤) }
{
    if !conn.is_autocommit() {
        return Err(StoreFault::Refused);
    }
    let mut tx = conn.transaction();
    lock_into(&mut tx, lock, id)?;
    finish_with(tx, ())
}

#[tactic(auto, using(crate::proofs::Calls::led))]
fn restore_retired<S: Alter>(
    conn: &mut Connection<S>,
    repo: &RepoName,
    oid: &Oid,
) -> Result<(), StoreFault>
    ensures { Transacts S.Store conn.old conn.new result (with_retired (repo_text repo.now) oid.now)
        (λ _ _. ⊤) }
{
    if !conn.is_autocommit() {
        return Err(StoreFault::Refused);
    }
    let mut tx = conn.transaction();
    name_into(&mut tx, repo, oid)?;
    finish_with(tx, ())
}

#[tactic(auto, using(crate::proofs::Calls::led))]
fn restore_object<S: Alter>(
    conn: &mut Connection<S>,
    object: &NewUpload<'_>,
    id: UploadId,
    chunk: Option<NewChunk<'_>>,
) -> Result<(), StoreFault>
    ensures { Transacts S.Store conn.old conn.new result
        (with_restored object.now (upload_number id) chunk.entry)
        (λ t _. has_upload (upload_number id) t ≡ false) }
{
    if !conn.is_autocommit() {
        return Err(StoreFault::Refused);
    }
    let mut tx = conn.transaction();
    object_into(&mut tx, object, id, chunk)?;
    finish_with(tx, ())
}

// ---- the calls

impl<S: Alter> Store<S> {
    /// Adds a repository's row: the number of locks that it ever made, and the number of bytes that it stores.
    ///
    /// # Errors
    ///
    /// `Refused`, also if the repository has a row, or the number of bytes is 2^63 or more, or `Memory`. The tables are
    /// unchanged, but a stop may still leave the change.
    pub fn restore_repo(&mut self, repo: &RepoName, made: u32, used: u64) -> Result<(), StoreFault>
        ensures { Changes S.Store self.old self.new result
            (with_counts (repo_text repo.now) (pos made) (pos used)) (λ _ _. ⊤) }
    {
        restore_repo(&mut self.conn, repo, made, used)
    }

    /// Adds a lock under this id, and does not count it.
    ///
    /// # Errors
    ///
    /// `Refused`, also if the repository has a lock of this id or on this path, or `Memory`. The tables are unchanged,
    /// but a stop may still leave the change.
    pub fn restore_lock(&mut self, lock: &NewLock<'_>, id: LockId) -> Result<(), StoreFault>
        ensures { Changes S.Store self.old self.new result
            (with_lock (record (asked_lock lock.now) { id = pos id })) (λ _ _. ⊤) }
    {
        restore_lock(&mut self.conn, lock, id)
    }

    /// Adds a retired name.
    ///
    /// # Errors
    ///
    /// `Refused`, also if the repository has retired it, or `Memory`. The tables are unchanged, but a stop may still
    /// leave the change.
    pub fn restore_retired(&mut self, repo: &RepoName, oid: &Oid) -> Result<(), StoreFault>
        ensures { Changes S.Store self.old self.new result
            (with_retired (repo_text repo.now) oid.now) (λ _ _. ⊤) }
    {
        restore_retired(&mut self.conn, repo, oid)
    }

    /// Adds an object under this id, with this chunk if it is given, both or neither. Its size is not counted.
    ///
    /// # Errors
    ///
    /// `Refused`, also if an upload has this id, or the repository an object of this name, or the upload a chunk with
    /// this number, or `Memory`. The tables are unchanged, but a stop may still leave the change.
    pub fn restore_object(
        &mut self,
        object: &NewUpload<'_>,
        id: UploadId,
        chunk: Option<NewChunk<'_>>,
    ) -> Result<(), StoreFault>
        ensures { Changes S.Store self.old self.new result
            (with_restored object.now (upload_number id) chunk.entry)
            (λ t _. has_upload (upload_number id) t ≡ false) }
    {
        restore_object(&mut self.conn, object, id, chunk)
    }
}
