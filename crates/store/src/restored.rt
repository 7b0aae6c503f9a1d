//! Rows that are added as they are.

ghost use Rattle.std.specs.Prelude.{◌≡◌, ⊤, pos, false};
ghost use Rattle.names.specs.Names.{repo_text};
ghost use Rattle.tables.specs.Statements.{with_counts, with_lock, with_retired};
ghost use Rattle.tables.specs.Steps.{asked_lock};
ghost use Rattle.tables.specs.Staging.{upload_number};
ghost use Rattle.tables.specs.Restoring.{has_upload, with_restored};
ghost use Rattle.store.specs.Normal.{normal};
ghost use Rattle.store.specs.Shown.{Changes};

use crate::store::Store;
use names::{LockId, Oid, RepoName};
use tables::{Alter, NewChunk, NewLock, NewUpload, StoreFault, UploadId};

/// A store that adds rows as another one has them: a copy of a database is made so. Tokens are copied by `add_token`.
pub trait Restored: Store {
    /// Adds a repository's row: the number of locks that it ever made, and the number of bytes that it stores.
    ///
    /// # Errors
    ///
    /// `Refused`, also if the repository has a row, or the number of bytes is 2^63 or more, or `Memory`. The tables are
    /// unchanged, but a stop may still leave the change.
    fn restore_repo(&mut self, repo: &RepoName, made: u32, used: u64) -> Result<(), StoreFault>
        ensures { Changes Self.State self.old self.new result
            (with_counts (repo_text repo.now) (pos made) (pos used)) (λ _ _. ⊤) };

    /// Adds a lock under this id, and does not count it.
    ///
    /// # Errors
    ///
    /// `Refused`, also if the repository has a lock of this id or on this path, or `Memory`. The tables are unchanged,
    /// but a stop may still leave the change.
    fn restore_lock(&mut self, lock: &NewLock<'_>, id: LockId) -> Result<(), StoreFault>
        ensures { Changes Self.State self.old self.new result
            (with_lock (record (asked_lock lock.now) { id = pos id })) (λ _ _. ⊤) };

    /// Adds a retired name.
    ///
    /// # Errors
    ///
    /// `Refused`, also if the repository has retired it, or `Memory`. The tables are unchanged, but a stop may still
    /// leave the change.
    fn restore_retired(&mut self, repo: &RepoName, oid: &Oid) -> Result<(), StoreFault>
        ensures { Changes Self.State self.old self.new result
            (with_retired (repo_text repo.now) oid.now) (λ _ _. ⊤) };

    /// Adds an object under this id, with this chunk if it is given, both or neither. Its size is not counted.
    ///
    /// # Errors
    ///
    /// `Refused`, also if an upload has this id, or the repository an object of this name, or the upload a chunk with
    /// this number, or `Memory`. The tables are unchanged, but a stop may still leave the change.
    fn restore_object(
        &mut self,
        object: &NewUpload<'_>,
        id: UploadId,
        chunk: Option<NewChunk<'_>>,
    ) -> Result<(), StoreFault>
        ensures { Changes Self.State self.old self.new result
            (λ t. normal (with_restored object.now (upload_number id) chunk.entry t))
            (λ t _. has_upload (upload_number id) t ≡ false) };
}

impl<S: Alter> Restored for tables::Store<S> {
    fn restore_repo(&mut self, repo: &RepoName, made: u32, used: u64) -> Result<(), StoreFault> {
        tables::Store::restore_repo(self, repo, made, used)
    }

    fn restore_lock(&mut self, lock: &NewLock<'_>, id: LockId) -> Result<(), StoreFault> {
        tables::Store::restore_lock(self, lock, id)
    }

    fn restore_retired(&mut self, repo: &RepoName, oid: &Oid) -> Result<(), StoreFault> {
        tables::Store::restore_retired(self, repo, oid)
    }

    fn restore_object(
        &mut self,
        object: &NewUpload<'_>,
        id: UploadId,
        chunk: Option<NewChunk<'_>>,
    ) -> Result<(), StoreFault> {
        tables::Store::restore_object(self, object, id, chunk)
    }
}
