//! What a store remembers of staged uploads, so that the next upload of a repository finds the one that it replaces.

ghost use Rattle.std.specs.Prelude.{◌≡◌, map, filter, option_map, IfOk, IfSome, MatchOption, find};
ghost use Rattle.std.specs.List.{AllByRecursion};
ghost use Rattle.names.specs.Names.{repo_text};
ghost use Rattle.tables.specs.Rows.{Upload};
ghost use Rattle.tables.specs.Statements.{same_bytes, is_staged, show_upload};
ghost use Rattle.tables.specs.Staging.{upload_number, staged_with, IsUploadOf, AreUploadsOf};
ghost use Rattle.tables.specs.Calls.{Looks};
ghost use Rattle.tables.specs.Shown.{Reads};
ghost use Rattle.tables.specs.Learning.{Learns};
ghost use Rattle.tables.specs.Seeking.{Seeks, Finds};
ghost use Rattle.tables.specs.Remembered.{is_entry_of, remembered_in, IsEntryOf, IsLast, IsFirst, IsNoted};

use crate::Store;
use crate::fault::StoreFault;
use crate::read::read;
use crate::rows::{UploadId, UploadRow, all_uploads, first_upload};
use names::RepoName;
use sqlite::{Alter, Connection, Row, params};
use std::alloc::{AllocError, Global};

/// The last upload that a repository began.
#[derive(Drop)]
pub(crate) struct Remembered {
    repo: RepoName,
    /// It may be complete or removed.
    id: UploadId,
}

/// Whether the names are the same.
pub(crate) fn is_same(a: &RepoName, b: &RepoName) -> bool
    ensures { result ≡ same_bytes (repo_text a.now) (repo_text b.now) }
{
    a.as_str() == b.as_str()
}

/// The index of the repository's first entry.
fn place_of(known: &[Remembered], repo: &RepoName) -> Option<usize>
    ensures { MatchOption result (find (is_entry_of (repo_text repo.now)) known.now ≡ None)
        (IsFirst (is_entry_of (repo_text repo.now)) known.now) }
{
    for (at, entry) in known.iter().enumerate() {
        if is_same(&entry.repo, repo) {
            return Some(at);
        }
    }
    None
}

/// The upload that is remembered for the repository.
pub(crate) fn remembered_in(known: &[Remembered], repo: &RepoName) -> Option<UploadId>
    ensures { option_map upload_number result ≡ remembered_in known.now (repo_text repo.now) }
{
    let at = place_of(known, repo)?;
    Some(known[at].id)
}

/// Remembers the upload for the repository, in place of the one before; `None` if memory runs out.
pub(crate) fn remember(
    alloc: Global,
    mut known: Vec<Remembered>,
    repo: &RepoName,
    id: UploadId,
) -> Option<Vec<Remembered>>
    ensures { IfSome result
        (λ new. IsNoted known.items (repo_text repo.now) (upload_number id) new.items) }
{
    if let Some(at) = place_of(known.as_slice(), repo) {
        known[at].id = id;
        return Some(known);
    }
    let Ok(repo) = repo.to_owned(alloc) else {
        return None;
    };
    known.push(Remembered { repo, id }).ok()?;
    Some(known)
}

fn id_from(row: &Row) -> Result<UploadId, StoreFault>
    ensures { (u : Upload) → row.now ≡ show_upload u → IfOk result
        (λ id. upload_number id ≡ u.id) }
{
    Ok(UploadId {
        number: row.get(0)?,
    })
}

/// The repository and the id in a row. A row that is out of range is refused.
fn entry_from(row: &Row) -> Result<Remembered, StoreFault>
    ensures { (u : Upload) → row.now ≡ show_upload u → IfOk result
        (λ entry. IsEntryOf u entry) }
{
    Ok(Remembered {
        repo: RepoName::read(row.get(1)?).ok_or(StoreFault::Refused)?,
        id: id_from(row)?,
    })
}

/// The staged uploads in the rows. Two of one repository are refused.
pub(crate) fn all_remembered(alloc: Global, rows: &[Row]) -> Result<Vec<Remembered>, StoreFault>
    ensures { (uploads : _) → rows.now ≡ map show_upload uploads → IfOk result
        (λ known. AllByRecursion (IsLast known.items) uploads) }
{
    let mut known = Vec::with_capacity(alloc, rows.len())?;
    for row in rows {
        let entry = entry_from(row)?;
        if remembered_in(known.as_slice(), &entry.repo).is_some() {
            return Err(StoreFault::Refused);
        }
        known.push(entry).map_err(AllocError::from)?;
    }
    Ok(known)
}

/// The staged upload with this id.
fn staged_row<S: Alter>(
    conn: &mut Connection<S>,
    id: UploadId,
) -> Result<Option<UploadRow>, StoreFault>
    ensures { Looks S.Store conn.old conn.new result
        (λ t found. IsUploadOf found (staged_with (upload_number id) t)) }
{
    let rows = read(
        conn,
        "SELECT id, repo, oid, size, done FROM uploads WHERE id = ?1 AND done = 0 ORDER BY rowid",
        params![id.number],
    )?;
    first_upload(rows.as_slice())
}

/// The upload that the repository has staged, if this is the last one that it began.
fn last_staged<S: Alter>(
    conn: &mut Connection<S>,
    last: Option<UploadId>,
    repo: &RepoName,
) -> Result<Option<UploadRow>, StoreFault>
    ensures { Seeks S.Store conn.old conn.new last (repo_text repo.now) result }
{
    let Some(last) = last else {
        return Ok(None);
    };
    let Some(upload) = staged_row(conn, last)? else {
        return Ok(None);
    };
    if !is_same(&upload.repo, repo) {
        return Err(StoreFault::Refused);
    }
    Ok(Some(upload))
}

impl<S: Alter> Store<S> {
    /// Returns the upload that the repository has staged, if there is one.
    ///
    /// # Errors
    ///
    /// `Refused`, also if a repository has two staged uploads, or `Memory`. The tables are unchanged in any case.
    pub fn staged_upload(
        &mut self,
        alloc: Global,
        repo: &RepoName,
    ) -> Result<Option<UploadRow>, StoreFault>
        ensures { Finds S.Store self.old self.new (repo_text repo.now) result }
    {
        let known = self.take_staged(alloc)?;
        let last = remembered_in(known.as_slice(), repo);
        let found = last_staged(&mut self.conn, last, repo);
        self.staged = Some(known);
        found
    }

    /// Returns all staged uploads, in rising ids.
    ///
    /// # Errors
    ///
    /// `Refused` or `Memory`. The tables are unchanged in any case.
    pub fn staged_uploads(&mut self, alloc: Global) -> Result<Vec<UploadRow>, StoreFault>
        ensures { Reads S.Store self.old self.new result
            (λ t found. AreUploadsOf found.items (filter is_staged t.uploads)) }
    {
        let rows = read(
            &mut self.conn,
            "SELECT id, repo, oid, size, done FROM uploads WHERE done = 0 ORDER BY rowid",
            params![],
        )?;
        all_uploads(alloc, rows.as_slice())
    }

    /// Takes what the store remembers of staged uploads, or reads it. The store then remembers nothing.
    pub(crate) fn take_staged(&mut self, alloc: Global) -> Result<Vec<Remembered>, StoreFault>
        ensures learns { Learns S.Store self.old self.new result }
        ensures none { self.new.staged ≡ None }
    {
        if let Some(known) = self.staged.take() {
            return Ok(known);
        }
        let rows = read(
            &mut self.conn,
            "SELECT id, repo, oid, size, done FROM uploads WHERE done = 0 ORDER BY rowid",
            params![],
        )?;
        all_remembered(alloc, rows.as_slice())
    }
}
