//! The calls that read all rows of a table, as a copy of the database needs them.

ghost use Rattle.std.specs.Prelude.{◌≡◌, ◌≢◌, pos, map, IfOk, MatchOption};
ghost use Rattle.tables.specs.Rows.{Repo, Lock, Retired, Upload, Chunk};
ghost use Rattle.tables.specs.Statements.{show_repo, show_repo_lock, show_repo_retired, show_upload, show_chunk_key};
ghost use Rattle.tables.specs.Steps.{AreTokensOf};
ghost use Rattle.tables.specs.Listing.{read_repo, repo_fields, AreReposOf, read_repo_lock, repo_lock_fields, AreRepoLocksOf, read_retired, retired_fields, AreRetiredOf, mark_of, read_marked, marked_fields, AreMarkedOf, read_key, key_fields, AreKeysOf};
ghost use Rattle.tables.specs.Shown.{Reads};

use crate::Store;
use crate::fault::StoreFault;
use crate::read::read;
use crate::rows::{
    ChunkKey, LockRow, MarkedUpload, RepoLock, RepoRow, RetiredRow, TokenRow, UploadId, all_tokens,
    upload_from,
};
use crate::uploads::unsigned;
use names::{LockId, LockPath, Moment, Oid, RefName, RepoName, UserName};
use sqlite::{Alter, Row, params};
use std::alloc::{AllocError, Global};

// ---- one row

/// The repository in a row. A row that is out of range is refused.
fn repo_from(row: &Row) -> Result<RepoRow, StoreFault>
    ensures { (r : Repo) → row.now ≡ show_repo r → IfOk result
        (λ found. read_repo found ≡ repo_fields r) }
{
    Ok(RepoRow {
        name: RepoName::read(row.get(0)?).ok_or(StoreFault::Refused)?,
        made: row.get(1)?,
        used: unsigned(row.get(2)?)?,
    })
}

/// The lock in a row that has its repository too. A row that is out of range is refused.
fn repo_lock_from(row: &Row) -> Result<RepoLock, StoreFault>
    ensures { (l : Lock) → row.now ≡ show_repo_lock l → IfOk result
        (λ found. read_repo_lock found ≡ repo_lock_fields l) }
{
    Ok(RepoLock {
        repo: RepoName::read(row.get(0)?).ok_or(StoreFault::Refused)?,
        lock: LockRow {
            id: LockId::from_number(row.get(1)?).ok_or(StoreFault::Refused)?,
            ref_name: RefName::read(row.get(2)?).ok_or(StoreFault::Refused)?,
            path: LockPath::read(row.get(3)?).ok_or(StoreFault::Refused)?,
            owner: UserName::read(row.get(4)?).ok_or(StoreFault::Refused)?,
            moment: Moment::read(row.get(5)?).ok_or(StoreFault::Refused)?,
        },
    })
}

/// The retired name in a row that has its repository too. A row that is out of range is refused.
fn retired_from(row: &Row) -> Result<RetiredRow, StoreFault>
    ensures { (r : Retired) → row.now ≡ show_repo_retired r → IfOk result
        (λ found. read_retired found ≡ retired_fields r) }
{
    let oid: String = row.get(1)?;
    Ok(RetiredRow {
        repo: RepoName::read(row.get(0)?).ok_or(StoreFault::Refused)?,
        oid: Oid::read(oid.as_bytes()).ok_or(StoreFault::Refused)?,
    })
}

/// Whether an upload with this mark is complete; `None` for any other number.
fn complete_by(mark: u32) -> Option<bool>
    ensures { MatchOption result
        ((complete : _) → mark_of complete ≢ pos mark)
        (λ complete. mark_of complete ≡ pos mark) }
{
    match mark {
        0 => Some(false),
        1 => Some(true),
        _ => None,
    }
}

/// The upload in a row, with its mark. A row that is out of range is refused.
fn marked_from(row: &Row) -> Result<MarkedUpload, StoreFault>
    ensures { (u : Upload) → row.now ≡ show_upload u → IfOk result
        (λ found. read_marked found ≡ marked_fields u) }
{
    Ok(MarkedUpload {
        upload: upload_from(row)?,
        is_complete: complete_by(row.get(4)?).ok_or(StoreFault::Refused)?,
    })
}

/// The key of the chunk in a row. A row that is out of range is refused.
fn key_from(row: &Row) -> Result<ChunkKey, StoreFault>
    ensures { (c : Chunk) → row.now ≡ show_chunk_key c → IfOk result
        (λ found. read_key found ≡ key_fields c) }
{
    Ok(ChunkKey {
        upload: UploadId {
            number: row.get(0)?,
        },
        n: row.get(1)?,
    })
}

// ---- all rows

fn all_repos(alloc: Global, rows: &[Row]) -> Result<Vec<RepoRow>, StoreFault>
    ensures { (repos : _) → rows.now ≡ map show_repo repos → IfOk result
        (λ found. AreReposOf found.items repos) }
{
    let mut found = Vec::with_capacity(alloc, rows.len())?;
    for row in rows {
        let repo = repo_from(row)?;
        found.push(repo).map_err(AllocError::from)?;
    }
    Ok(found)
}

fn all_repo_locks(alloc: Global, rows: &[Row]) -> Result<Vec<RepoLock>, StoreFault>
    ensures { (locks : _) → rows.now ≡ map show_repo_lock locks → IfOk result
        (λ found. AreRepoLocksOf found.items locks) }
{
    let mut found = Vec::with_capacity(alloc, rows.len())?;
    for row in rows {
        let lock = repo_lock_from(row)?;
        found.push(lock).map_err(AllocError::from)?;
    }
    Ok(found)
}

fn all_retired(alloc: Global, rows: &[Row]) -> Result<Vec<RetiredRow>, StoreFault>
    ensures { (retired : _) → rows.now ≡ map show_repo_retired retired → IfOk result
        (λ found. AreRetiredOf found.items retired) }
{
    let mut found = Vec::with_capacity(alloc, rows.len())?;
    for row in rows {
        let name = retired_from(row)?;
        found.push(name).map_err(AllocError::from)?;
    }
    Ok(found)
}

fn all_marked(alloc: Global, rows: &[Row]) -> Result<Vec<MarkedUpload>, StoreFault>
    ensures { (uploads : _) → rows.now ≡ map show_upload uploads → IfOk result
        (λ found. AreMarkedOf found.items uploads) }
{
    let mut found = Vec::with_capacity(alloc, rows.len())?;
    for row in rows {
        let upload = marked_from(row)?;
        found.push(upload).map_err(AllocError::from)?;
    }
    Ok(found)
}

fn all_keys(alloc: Global, rows: &[Row]) -> Result<Vec<ChunkKey>, StoreFault>
    ensures { (chunks : _) → rows.now ≡ map show_chunk_key chunks → IfOk result
        (λ found. AreKeysOf found.items chunks) }
{
    let mut found = Vec::with_capacity(alloc, rows.len())?;
    for row in rows {
        let key = key_from(row)?;
        found.push(key).map_err(AllocError::from)?;
    }
    Ok(found)
}

// ---- the calls

impl<S: Alter> Store<S> {
    /// Returns all repositories that have a row, with their counts, in the order in which the rows were added.
    ///
    /// # Errors
    ///
    /// `Refused` or `Memory`. The tables are unchanged in any case.
    pub fn all_repos(&mut self, alloc: Global) -> Result<Vec<RepoRow>, StoreFault>
        ensures { Reads S.Store self.old self.new result
            (λ t found. AreReposOf found.items t.repos) }
    {
        let rows = read(
            &mut self.conn,
            "SELECT name, made, used FROM repos ORDER BY rowid",
            params![],
        )?;
        all_repos(alloc, rows.as_slice())
    }

    /// Returns the locks of all repositories, in the order in which they were added.
    ///
    /// # Errors
    ///
    /// `Refused` or `Memory`. The tables are unchanged in any case.
    pub fn all_locks(&mut self, alloc: Global) -> Result<Vec<RepoLock>, StoreFault>
        ensures { Reads S.Store self.old self.new result
            (λ t found. AreRepoLocksOf found.items t.locks) }
    {
        let rows = read(
            &mut self.conn,
            "SELECT repo, id, ref, path, owner, moment FROM locks ORDER BY rowid",
            params![],
        )?;
        all_repo_locks(alloc, rows.as_slice())
    }

    /// Returns all tokens, in the order in which they were added.
    ///
    /// # Errors
    ///
    /// `Refused` or `Memory`. The tables are unchanged in any case.
    pub fn all_tokens(&mut self, alloc: Global) -> Result<Vec<TokenRow>, StoreFault>
        ensures { Reads S.Store self.old self.new result
            (λ t found. AreTokensOf found.items t.tokens) }
    {
        let rows = read(
            &mut self.conn,
            "SELECT digest, user, repo, op, expires FROM tokens ORDER BY rowid",
            params![],
        )?;
        all_tokens(alloc, rows.as_slice())
    }

    /// Returns the names that all repositories have retired, in the order in which they were retired.
    ///
    /// # Errors
    ///
    /// `Refused` or `Memory`. The tables are unchanged in any case.
    pub fn all_retired(&mut self, alloc: Global) -> Result<Vec<RetiredRow>, StoreFault>
        ensures { Reads S.Store self.old self.new result
            (λ t found. AreRetiredOf found.items t.retired) }
    {
        let rows = read(
            &mut self.conn,
            "SELECT repo, oid FROM retired ORDER BY rowid",
            params![],
        )?;
        all_retired(alloc, rows.as_slice())
    }

    /// Returns all uploads, staged and complete, in rising ids.
    ///
    /// # Errors
    ///
    /// `Refused` or `Memory`. The tables are unchanged in any case.
    pub fn all_uploads(&mut self, alloc: Global) -> Result<Vec<MarkedUpload>, StoreFault>
        ensures { Reads S.Store self.old self.new result
            (λ t found. AreMarkedOf found.items t.uploads) }
    {
        let rows = read(
            &mut self.conn,
            "SELECT id, repo, oid, size, done FROM uploads ORDER BY rowid",
            params![],
        )?;
        all_marked(alloc, rows.as_slice())
    }

    /// Returns the upload and the number of each chunk, in the order in which they were added.
    ///
    /// # Errors
    ///
    /// `Refused` or `Memory`. The tables are unchanged in any case.
    pub fn chunk_keys(&mut self, alloc: Global) -> Result<Vec<ChunkKey>, StoreFault>
        ensures { Reads S.Store self.old self.new result
            (λ t found. AreKeysOf found.items t.chunks) }
    {
        let rows = read(
            &mut self.conn,
            "SELECT upload, n FROM chunks ORDER BY rowid",
            params![],
        )?;
        all_keys(alloc, rows.as_slice())
    }
}
