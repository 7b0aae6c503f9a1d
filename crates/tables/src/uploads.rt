//! The calls on uploads, and on the number of bytes that a repository stores.

ghost use Rattle.std.specs.Prelude.{◌≡◌, ◌+ℤ◌, pos, Some, find, map, slice_get, is_some, option_map, IfOk, IfSome};
ghost use Rattle.names.specs.Names.{repo_text};
ghost use Rattle.sqlite.specs.Held.{state};
ghost use Rattle.typed_rows.specs.Transactions.{Inside};
ghost use Rattle.tables.specs.Rows.{Upload};
ghost use Rattle.tables.specs.Runs.{tables_in};
ghost use Rattle.tables.specs.Statements.{same_bytes, is_named, is_object, show_upload, show_used, without_row, without_chunks, without_chunks_from, with_done};
ghost use Rattle.tables.specs.Calls.{MakesStep, Says, Does, Looks, Transacts};
ghost use Rattle.tables.specs.Steps.{used_in, used_of};
ghost use Rattle.tables.specs.Staging.{upload_number, staged_with, upload_sized, read_object, IsObjectOf, IsUploadOf, AreUploadsOf, objects_of, repo_total, read_total, IsTotalOf, with_used, without_upload, without_staged, without_staged_from, with_kept, is_as_begun, begun_as, settled_as, with_last, after_settling, completion_of, after_complete};
ghost use Rattle.tables.specs.Shown.{Reads, Changes};

use crate::Store;
use crate::chunks::chunk_into;
use crate::fault::StoreFault;
use crate::new_rows::LastChunk;
use crate::read::{read, select};
use crate::rows::{Completion, ObjectRow, UploadId, UploadRow, all_uploads, first_upload};
use crate::write::{change, finish_with};
use names::{Oid, RepoName, Size};
use sqlite::{Alter, Connection, Error, Row, Transaction, params};
use std::alloc::Global;

/// A repository's row: its rowid, and the number of bytes that the repository stores.
#[derive(Clone, Copy, Debug)]
pub(crate) struct Total {
    rowid: i64,
    used: i64,
}

/// The object in a row. A row that is out of range is refused.
fn object_from(row: &Row) -> Result<ObjectRow, StoreFault>
    ensures { (u : Upload) → row.now ≡ show_upload u → IfOk result
        (λ found. read_object found ≡ upload_sized u) }
{
    Ok(ObjectRow {
        id: UploadId {
            number: row.get(0)?,
        },
        size: Size::read(row.get(3)?).ok_or(StoreFault::Refused)?,
    })
}

/// The object in the first of the rows.
pub(crate) fn first_object(rows: &[Row]) -> Result<Option<ObjectRow>, StoreFault>
    ensures { (uploads : _) → rows.now ≡ map show_upload uploads → IfOk result
        (λ found. IsObjectOf found (slice_get uploads 0)) }
{
    match rows.first() {
        None => Ok(None),
        Some(row) => Ok(Some(object_from(row)?)),
    }
}

fn total_from(row: &Row) -> Result<Total, StoreFault>
    ensures { (r : _) → row.now ≡ show_used r → IfOk result
        (λ found. read_total found ≡ repo_total r) }
{
    Ok(Total {
        rowid: row.get(0)?,
        used: row.get(1)?,
    })
}

/// The total in the first of the rows.
fn first_total(rows: &[Row]) -> Result<Option<Total>, StoreFault>
    ensures { (repos : _) → rows.now ≡ map show_used repos → IfOk result
        (λ found. IsTotalOf found (slice_get repos 0)) }
{
    match rows.first() {
        None => Ok(None),
        Some(row) => Ok(Some(total_from(row)?)),
    }
}

/// The number of bytes stored; 0 if the repository has no row yet.
pub(crate) fn used_so_far(total: Option<Total>) -> i64
    ensures { (repo : _) → IsTotalOf total repo → result ≡ used_in repo }
{
    match total {
        None => 0,
        Some(total) => total.used,
    }
}

/// The number of bytes of the object, as the database stores it.
pub(crate) fn bytes_of(size: Size) -> i64
    ensures { result ≡ pos size }
{
    size.get() as i64
}

/// The number of bytes stored with one more object; `None` if no column holds it.
fn used_with(total: Option<Total>, size: Size) -> Option<i64>
    ensures { (repo : _) → IsTotalOf total repo → IfSome result
        (λ used. used ≡ used_in repo +ℤ pos size) }
{
    used_so_far(total).checked_add(bytes_of(size))
}

/// The number, which is refused if it is below 0.
pub(crate) fn unsigned(number: i64) -> Result<u64, StoreFault>
    ensures { IfOk result (λ n. pos n ≡ number) }
{
    u64::try_from(number).map_err(|_| StoreFault::Refused)
}

// ---- one statement

/// The staged upload with this id.
pub(crate) fn staged_in<S: Alter>(
    tx: &mut Transaction<'_, S>,
    id: UploadId,
) -> Result<Option<UploadRow>, StoreFault>
    ensures same_reference { tx.new.conn.ghost_name ≡ tx.old.conn.ghost_name }
    ensures value { Says S.Store tx.old.conn.now tx.new.conn.now result
        (λ t found. IsUploadOf found (staged_with (upload_number id) t)) }
    ensures does { Does S.Store tx.old.conn.now tx.new.conn.now result (λ t. t) }
{
    let rows = select(
        tx,
        "SELECT id, repo, oid, size, done FROM uploads WHERE id = ?1 AND done = 0 ORDER BY rowid",
        params![id.number],
    )?;
    first_upload(rows.as_slice())
}

/// Whether the repository has an object of this name.
fn is_stored<S: Alter>(
    tx: &mut Transaction<'_, S>,
    repo: &RepoName,
    oid: &Oid,
) -> Result<bool, Error>
    ensures same_reference { tx.new.conn.ghost_name ≡ tx.old.conn.ghost_name }
    ensures value { Says S.Store tx.old.conn.now tx.new.conn.now result
        (λ t stored. is_some (find (is_object (repo_text repo.now) oid.now) t.uploads) ≡ stored) }
    ensures does { Does S.Store tx.old.conn.now tx.new.conn.now result (λ t. t) }
{
    let rows = select(
        tx,
        "SELECT id, repo, oid, size, done FROM uploads WHERE repo = ?1 AND oid = ?2 AND done = 1 ORDER BY rowid",
        params![repo.as_str(), oid.text()],
    )?;
    Ok(!rows.is_empty())
}

pub(crate) fn total_in<S: Alter>(
    tx: &mut Transaction<'_, S>,
    repo: &RepoName,
) -> Result<Option<Total>, StoreFault>
    ensures same_reference { tx.new.conn.ghost_name ≡ tx.old.conn.ghost_name }
    ensures value { Says S.Store tx.old.conn.now tx.new.conn.now result
        (λ t found. IsTotalOf found (find (is_named (repo_text repo.now)) t.repos)) }
    ensures does { Does S.Store tx.old.conn.now tx.new.conn.now result (λ t. t) }
{
    let rows = select(
        tx,
        "SELECT rowid, used FROM repos WHERE name = ?1 ORDER BY rowid",
        params![repo.as_str()],
    )?;
    first_total(rows.as_slice())
}

fn chunks_out<S: Alter>(tx: &mut Transaction<'_, S>, id: UploadId) -> Result<usize, Error>
    ensures same_reference { tx.new.conn.ghost_name ≡ tx.old.conn.ghost_name }
    ensures does { Does S.Store tx.old.conn.now tx.new.conn.now result
        (without_chunks (upload_number id)) }
{
    change(
        tx,
        "DELETE FROM chunks WHERE upload = ?1",
        params![id.number],
    )
}

/// Removes the chunks of the upload from this number on.
fn chunks_from_out<S: Alter>(
    tx: &mut Transaction<'_, S>,
    id: UploadId,
    n: u32,
) -> Result<usize, Error>
    ensures same_reference { tx.new.conn.ghost_name ≡ tx.old.conn.ghost_name }
    ensures does { Does S.Store tx.old.conn.now tx.new.conn.now result
        (without_chunks_from (upload_number id) (pos n)) }
{
    change(
        tx,
        "DELETE FROM chunks WHERE upload = ?1 AND n >= ?2",
        params![id.number, n],
    )
}

fn row_out<S: Alter>(tx: &mut Transaction<'_, S>, id: UploadId) -> Result<usize, Error>
    ensures same_reference { tx.new.conn.ghost_name ≡ tx.old.conn.ghost_name }
    ensures does { Does S.Store tx.old.conn.now tx.new.conn.now result
        (without_row (upload_number id)) }
{
    change(tx, "DELETE FROM uploads WHERE id = ?1", params![id.number])
}

fn done_into<S: Alter>(tx: &mut Transaction<'_, S>, id: UploadId) -> Result<usize, Error>
    ensures same_reference { tx.new.conn.ghost_name ≡ tx.old.conn.ghost_name }
    ensures does { Does S.Store tx.old.conn.now tx.new.conn.now result
        (with_done (upload_number id)) }
{
    change(
        tx,
        "UPDATE uploads SET done = 1 WHERE id = ?1",
        params![id.number],
    )
}

/// Sets the number of bytes that the repository stores, in the row that was found or in a new one.
pub(crate) fn set_used<S: Alter>(
    tx: &mut Transaction<'_, S>,
    repo: &RepoName,
    total: Option<Total>,
    used: i64,
) -> Result<usize, Error>
    ensures same_reference { tx.new.conn.ghost_name ≡ tx.old.conn.ghost_name }
    ensures ok { IsTotalOf total
        (find (is_named (repo_text repo.now)) (tables_in (state S.Store tx.old.conn.now)).repos)
        → MakesStep S.Store tx.old.conn.now tx.new.conn.now result
        (with_used (repo_text repo.now) used) }
    ensures within { Inside S.Store tx.old.conn.now tx.new.conn.now result }
{
    match total {
        None => change(
            tx,
            "INSERT INTO repos (name, made, used) VALUES (?1, 0, ?2)",
            params![repo.as_str(), used],
        ),
        Some(total) => change(
            tx,
            "UPDATE repos SET used = ?2 WHERE rowid = ?1",
            params![total.rowid, used],
        ),
    }
}

// ---- several statements

/// Removes the upload with its chunks.
pub(crate) fn upload_out<S: Alter>(
    tx: &mut Transaction<'_, S>,
    id: UploadId,
) -> Result<(), StoreFault>
    ensures same_reference { tx.new.conn.ghost_name ≡ tx.old.conn.ghost_name }
    ensures does { Does S.Store tx.old.conn.now tx.new.conn.now result
        (without_upload (upload_number id)) }
{
    chunks_out(tx, id)?;
    row_out(tx, id)?;
    Ok(())
}

/// Makes the upload complete, and adds its size to the number of bytes that its repository stores.
fn keep_into<S: Alter>(tx: &mut Transaction<'_, S>, upload: &UploadRow) -> Result<(), StoreFault>
    ensures same_reference { tx.new.conn.ghost_name ≡ tx.old.conn.ghost_name }
    ensures does { Does S.Store tx.old.conn.now tx.new.conn.now result
        (with_kept (begun_as upload.now)) }
{
    let total = total_in(tx, &upload.repo)?;
    let Some(used) = used_with(total, upload.size) else {
        return Err(StoreFault::Refused);
    };
    done_into(tx, upload.id)?;
    set_used(tx, &upload.repo, total, used)?;
    Ok(())
}

/// Adds the last chunk of the upload, if it has bytes, and then makes the upload complete.
fn keep_all_into<S: Alter>(
    tx: &mut Transaction<'_, S>,
    upload: &UploadRow,
    last: &LastChunk,
) -> Result<(), StoreFault>
    ensures same_reference { tx.new.conn.ghost_name ≡ tx.old.conn.ghost_name }
    ensures does { Does S.Store tx.old.conn.now tx.new.conn.now result
        (λ t. with_kept (begun_as upload.now) (with_last (upload_number upload.now.id) last.now t)) }
{
    if last.bytes.is_empty() {
        return keep_into(tx, upload);
    }
    chunk_into(tx, upload.id, last.n, last.bytes.as_slice())?;
    keep_into(tx, upload)
}

/// Makes the upload an object with this last chunk, unless its repository has an object of its name.
fn settle_into<S: Alter>(
    tx: &mut Transaction<'_, S>,
    upload: &UploadRow,
    last: &LastChunk,
) -> Result<Completion, StoreFault>
    ensures same_reference { tx.new.conn.ghost_name ≡ tx.old.conn.ghost_name }
    ensures value { Says S.Store tx.old.conn.now tx.new.conn.now result
        (λ t completion. completion ≡ settled_as (begun_as upload.now) t) }
    ensures does { Does S.Store tx.old.conn.now tx.new.conn.now result
        (after_settling last.now (begun_as upload.now)) }
{
    if is_stored(tx, &upload.repo, &upload.oid)? {
        return Ok(Completion::Already);
    }
    keep_all_into(tx, upload, last)?;
    Ok(Completion::New)
}

/// Whether the upload was begun with this name and this size.
fn is_as_begun(upload: &UploadRow, oid: &Oid, size: Size) -> bool
    ensures { result ≡ is_as_begun oid.now (pos size) (begun_as upload.now) }
{
    is_same_name(&upload.oid, oid) && upload.size.get() == size.get()
}

fn is_same_name(a: &Oid, b: &Oid) -> bool
    ensures { result ≡ same_bytes a.now b.now }
{
    a.text() == b.text()
}

/// Completes the upload, which has to be staged.
fn complete_into<S: Alter>(
    tx: &mut Transaction<'_, S>,
    id: UploadId,
    last: &LastChunk,
    oid: &Oid,
    size: Size,
) -> Result<Completion, StoreFault>
    ensures same_reference { tx.new.conn.ghost_name ≡ tx.old.conn.ghost_name }
    ensures value { Says S.Store tx.old.conn.now tx.new.conn.now result
        (λ t completion. completion_of (upload_number id) oid.now (pos size) t ≡ Some completion) }
    ensures does { Does S.Store tx.old.conn.now tx.new.conn.now result
        (after_complete (upload_number id) last.now oid.now (pos size)) }
{
    let Some(upload) = staged_in(tx, id)? else {
        return Err(StoreFault::Refused);
    };
    if !is_as_begun(&upload, oid, size) {
        return Ok(Completion::Differs);
    }
    settle_into(tx, &upload, last)
}

/// Removes the upload, if it is staged.
fn remove_into<S: Alter>(tx: &mut Transaction<'_, S>, id: UploadId) -> Result<bool, StoreFault>
    ensures same_reference { tx.new.conn.ghost_name ≡ tx.old.conn.ghost_name }
    ensures value { Says S.Store tx.old.conn.now tx.new.conn.now result
        (λ t removed. removed ≡ is_some (staged_with (upload_number id) t)) }
    ensures does { Does S.Store tx.old.conn.now tx.new.conn.now result
        (without_staged (upload_number id)) }
{
    let Some(upload) = staged_in(tx, id)? else {
        return Ok(false);
    };
    upload_out(tx, upload.id)?;
    Ok(true)
}

/// Removes the chunks of the upload from this number on, if it is staged.
fn shorten_into<S: Alter>(
    tx: &mut Transaction<'_, S>,
    id: UploadId,
    n: u32,
) -> Result<bool, StoreFault>
    ensures same_reference { tx.new.conn.ghost_name ≡ tx.old.conn.ghost_name }
    ensures value { Says S.Store tx.old.conn.now tx.new.conn.now result
        (λ t staged. staged ≡ is_some (staged_with (upload_number id) t)) }
    ensures does { Does S.Store tx.old.conn.now tx.new.conn.now result
        (without_staged_from (upload_number id) (pos n)) }
{
    let Some(upload) = staged_in(tx, id)? else {
        return Ok(false);
    };
    chunks_from_out(tx, upload.id, n)?;
    Ok(true)
}

// ---- one transaction

#[tactic(auto, using(crate::proofs::Calls::led))]
fn complete<S: Alter>(
    conn: &mut Connection<S>,
    id: UploadId,
    last: &LastChunk,
    oid: &Oid,
    size: Size,
) -> Result<Completion, StoreFault>
    ensures { Transacts S.Store conn.old conn.new result
        (after_complete (upload_number id) last.now oid.now (pos size))
        (λ t completion. completion_of (upload_number id) oid.now (pos size) t ≡ Some completion) }
{
    if !conn.is_autocommit() {
        return Err(StoreFault::Refused);
    }
    let mut tx = conn.transaction();
    let completion = complete_into(&mut tx, id, last, oid, size)?;
    finish_with(tx, completion)
}

#[tactic(auto, using(crate::proofs::Calls::led))]
fn remove<S: Alter>(conn: &mut Connection<S>, id: UploadId) -> Result<bool, StoreFault>
    ensures { Transacts S.Store conn.old conn.new result (without_staged (upload_number id))
        (λ t removed. removed ≡ is_some (staged_with (upload_number id) t)) }
{
    if !conn.is_autocommit() {
        return Err(StoreFault::Refused);
    }
    let mut tx = conn.transaction();
    let removed = remove_into(&mut tx, id)?;
    finish_with(tx, removed)
}

#[tactic(auto, using(crate::proofs::Calls::led))]
fn shorten<S: Alter>(conn: &mut Connection<S>, id: UploadId, n: u32) -> Result<bool, StoreFault>
    ensures { Transacts S.Store conn.old conn.new result
        (without_staged_from (upload_number id) (pos n))
        (λ t staged. staged ≡ is_some (staged_with (upload_number id) t)) }
{
    if !conn.is_autocommit() {
        return Err(StoreFault::Refused);
    }
    let mut tx = conn.transaction();
    let staged = shorten_into(&mut tx, id, n)?;
    finish_with(tx, staged)
}

/// The rows of the objects of the repository, or of all repositories.
fn object_rows<S: Alter>(
    conn: &mut Connection<S>,
    repo: Option<&RepoName>,
) -> Result<Vec<Row>, StoreFault>
    ensures { Looks S.Store conn.old conn.new result
        (λ t rows. rows.items ≡ map show_upload (objects_of (option_map (λ r. repo_text r.now) repo.entry) t)) }
{
    match repo {
        Some(repo) => read(
            conn,
            "SELECT id, repo, oid, size, done FROM uploads WHERE repo = ?1 AND done = 1 ORDER BY repo, oid, rowid",
            params![repo.as_str()],
        ),
        None => read(
            conn,
            "SELECT id, repo, oid, size, done FROM uploads WHERE done = 1 ORDER BY repo, oid, rowid",
            params![],
        ),
    }
}

impl<S: Alter> Store<S> {
    /// Returns the object that the repository has under this name.
    ///
    /// # Errors
    ///
    /// `Refused` or `Memory`. The tables are unchanged in any case.
    pub fn object(&mut self, repo: &RepoName, oid: &Oid) -> Result<Option<ObjectRow>, StoreFault>
        ensures { Reads S.Store self.old self.new result
            (λ t found. IsObjectOf found (find (is_object (repo_text repo.now) oid.now) t.uploads)) }
    {
        let rows = read(
            &mut self.conn,
            "SELECT id, repo, oid, size, done FROM uploads WHERE repo = ?1 AND oid = ?2 AND done = 1 ORDER BY rowid",
            params![repo.as_str(), oid.text()],
        )?;
        first_object(rows.as_slice())
    }

    /// Returns the objects of the repository, or of all repositories, in the order of repositories and names.
    ///
    /// # Errors
    ///
    /// `Refused` or `Memory`. The tables are unchanged in any case.
    pub fn objects(
        &mut self,
        alloc: Global,
        repo: Option<&RepoName>,
    ) -> Result<Vec<UploadRow>, StoreFault>
        ensures { Reads S.Store self.old self.new result
            (λ t found. AreUploadsOf found.items (objects_of (option_map (λ r. repo_text r.now) repo.entry) t)) }
    {
        let rows = object_rows(&mut self.conn, repo)?;
        all_uploads(alloc, rows.as_slice())
    }

    /// Returns the number of bytes that the repository stores: the sizes of its objects, added up.
    ///
    /// # Errors
    ///
    /// `Refused`, also for a number below 0, or `Memory`. The tables are unchanged in any case.
    pub fn used(&mut self, repo: &RepoName) -> Result<u64, StoreFault>
        ensures { Reads S.Store self.old self.new result
            (λ t n. pos n ≡ used_of (repo_text repo.now) t) }
    {
        let rows = read(
            &mut self.conn,
            "SELECT rowid, used FROM repos WHERE name = ?1 ORDER BY rowid",
            params![repo.as_str()],
        )?;
        unsigned(used_so_far(first_total(rows.as_slice())?))
    }

    /// Adds the last chunk of a staged upload, makes the upload an object and counts its size, all or nothing, if its
    /// bytes have the name and the size with which it was begun. If the repository already has an object of that name,
    /// the upload stays staged.
    ///
    /// # Errors
    ///
    /// `Refused`, also if no upload is staged under this id, or `Memory`. The tables are unchanged, but a stop may
    /// still leave the change.
    pub fn complete_upload(
        &mut self,
        id: UploadId,
        last: &LastChunk,
        oid: &Oid,
        size: Size,
    ) -> Result<Completion, StoreFault>
        ensures { Changes S.Store self.old self.new result
            (after_complete (upload_number id) last.now oid.now (pos size))
            (λ t completion. completion_of (upload_number id) oid.now (pos size) t
            ≡ Some completion) }
    {
        complete(&mut self.conn, id, last, oid, size)
    }

    /// Removes the chunks of the upload from this number on, if it is staged, and returns whether it is. One with many
    /// chunks is removed so in several transactions, of which none takes much memory or room in the log.
    ///
    /// # Errors
    ///
    /// `Refused` or `Memory`. The tables are unchanged, but a stop may still leave the change.
    pub fn shorten_upload(&mut self, id: UploadId, n: u32) -> Result<bool, StoreFault>
        ensures { Changes S.Store self.old self.new result
            (without_staged_from (upload_number id) (pos n))
            (λ t staged. staged ≡ is_some (staged_with (upload_number id) t)) }
    {
        shorten(&mut self.conn, id, n)
    }

    /// Removes the upload with its chunks, if it is staged, and returns whether it was.
    ///
    /// # Errors
    ///
    /// `Refused` or `Memory`. The tables are unchanged, but a stop may still leave the change.
    pub fn remove_upload(&mut self, id: UploadId) -> Result<bool, StoreFault>
        ensures { Changes S.Store self.old self.new result (without_staged (upload_number id))
            (λ t removed. removed ≡ is_some (staged_with (upload_number id) t)) }
    {
        remove(&mut self.conn, id)
    }
}
