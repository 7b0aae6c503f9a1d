//! The calls.

ghost use Rattle.std.specs.Prelude.{◌≡◌, ◌≤◌, ⊤, true, false, length, pos, not, find, filter, take, is_some, option_map, Some, IfOk, IfSome};
ghost use Rattle.names.specs.Names.{repo_text, ref_text, path_text, user_text};
ghost use Rattle.tables.specs.Statements.{is_at, has_id, is_in, is_from, by_id, has_digest, is_held_by, is_for, has_expired, is_object, is_staged, is_chunk, is_retired_as, is_retired_in, by_oid, with_chunk, without_lock, without_expired};
ghost use Rattle.tables.specs.Steps.{IsLockOf, AreLocksOf, made_of, used_of, asked_lock, outcome_of, read_creation, after_create, IsTokenOf, AreTokensOf, asked_token, has_token, after_add};
ghost use Rattle.tables.specs.Staging.{upload_number, asked_chunk, staged_with, IsObjectOf, AreUploadsOf, objects_of, without_staged, without_staged_from, completion_of, after_complete};
ghost use Rattle.tables.specs.Retiring.{after_retire, AreNamesOf};
ghost use Rattle.tables.specs.Discarding.{after_discard};
ghost use Rattle.store.specs.Content.{IsContentOf, IsPortion};
ghost use Rattle.store.specs.Normal.{normal};
ghost use Rattle.store.specs.ReadFaults.{result_behind};
ghost use Rattle.store.specs.Shown.{HasTables, IsHonest, IsOpen, Moves, AddsNothing, Reads, Changes, PutsOr, Begins, Finds, shown};

use crate::content::ChunkContent;
use crate::read_fault::ReadFault;
use crate::room::Room;
use crate::state::State;
use names::{LockId, LockPath, Moment, Oid, RefName, RepoName, Size, UserName};
use std::alloc::Global;
use tables::{
    Completion, Creation, LastChunk, LockRow, NewLock, NewToken, NewUpload, ObjectRow, StoreFault,
    TokenRow, UploadId, UploadRow,
};

/// A store of the tables. Each change is one transaction.
pub trait Store: State {
    /// Whether its files may be used: after a sync of a file of contents has failed they may not, since what was written
    /// may be lost. A store that is opened anew finds what is on the disk.
    fn may_be_used(&self) -> bool
        ensures { result ≡ Self.State.is_usable self.now };

    /// Returns how the file of contents is filled; `None` for a database alone.
    ///
    /// # Errors
    ///
    /// `Refused`. The tables are unchanged in any case.
    fn room(&mut self) -> Result<Option<Room>, StoreFault>
        ensures answers { IsHonest Self.State self.new
            → IfOk result (λ room. Self.State.has_room self.old room) }
        ensures same { Moves Self.State (λ t. t) self.old self.new }
        ensures adds { AddsNothing Self.State self.old self.new };

    /// Returns the number of locks that the repository ever made.
    ///
    /// # Errors
    ///
    /// `Refused` or `Memory`. The tables are unchanged in any case.
    fn made(&mut self, repo: &RepoName) -> Result<u32, StoreFault>
        ensures { Reads Self.State self.old self.new result
            (λ t n. pos n ≡ made_of (repo_text repo.now) t) };

    /// Returns the lock on this path of this ref, if the path is locked.
    ///
    /// # Errors
    ///
    /// `Refused` or `Memory`. The tables are unchanged in any case.
    fn lock_at(
        &mut self,
        repo: &RepoName,
        ref_name: &RefName,
        path: &LockPath,
    ) -> Result<Option<LockRow>, StoreFault>
        ensures { Reads Self.State self.old self.new result
            (λ t found. IsLockOf found (find
            (is_at (repo_text repo.now) (ref_text ref_name.now) (path_text path.now)) t.locks)) };

    /// Returns the lock with this id, if there is one.
    ///
    /// # Errors
    ///
    /// `Refused` or `Memory`. The tables are unchanged in any case.
    fn lock_with_id(&mut self, repo: &RepoName, id: LockId) -> Result<Option<LockRow>, StoreFault>
        ensures { Reads Self.State self.old self.new result
            (λ t found. IsLockOf found (find (has_id (repo_text repo.now) (pos id)) t.locks)) };

    /// Returns all locks of the repository, in rising ids.
    ///
    /// # Errors
    ///
    /// `Refused` or `Memory`. The tables are unchanged in any case.
    fn locks_in(&mut self, alloc: Global, repo: &RepoName) -> Result<Vec<LockRow>, StoreFault>
        ensures { Reads Self.State self.old self.new result
            (λ t found. AreLocksOf found.items
            (by_id (filter (is_in (repo_text repo.now)) t.locks))) };

    /// Returns the first 64 locks of the repository whose ids are this one or later, in rising ids.
    ///
    /// # Errors
    ///
    /// `Refused` or `Memory`. The tables are unchanged in any case.
    fn locks_from(
        &mut self,
        alloc: Global,
        repo: &RepoName,
        id: LockId,
    ) -> Result<Vec<LockRow>, StoreFault>
        ensures { Reads Self.State self.old self.new result
            (λ t found. AreLocksOf found.items
            (take 64 (by_id (filter (is_from (repo_text repo.now) (pos id)) t.locks)))) };

    /// Makes a lock under the repository's next id and counts it, both or neither. Nothing changes if the path is
    /// already locked, or no id is left.
    ///
    /// # Errors
    ///
    /// `Refused` or `Memory`. The tables are unchanged, but a stop may still leave the change.
    fn create_lock(&mut self, lock: &NewLock<'_>) -> Result<Creation, StoreFault>
        ensures { Changes Self.State self.old self.new result (after_create (asked_lock lock.now))
            (λ t creation. read_creation creation ≡ outcome_of (asked_lock lock.now) t) };

    /// Removes the lock with this id, and returns the number of locks removed: 0 or 1.
    ///
    /// # Errors
    ///
    /// `Refused` or `Memory`. The tables are unchanged, but a stop may still leave the change.
    fn remove_lock(&mut self, repo: &RepoName, id: LockId) -> Result<usize, StoreFault>
        ensures { Changes Self.State self.old self.new result
            (without_lock (repo_text repo.now) (pos id))
            (λ t n. n ≡ length (filter (has_id (repo_text repo.now) (pos id)) t.locks)) };

    /// Returns the token with this digest, if one is stored.
    ///
    /// # Errors
    ///
    /// `Refused` or `Memory`. The tables are unchanged in any case.
    fn token(&mut self, digest: &[u8; 32]) -> Result<Option<TokenRow>, StoreFault>
        ensures { Reads Self.State self.old self.new result
            (λ t found. IsTokenOf found (find (has_digest digest.now) t.tokens)) };

    /// Returns all tokens of the user in the repository, in the order in which they were added.
    ///
    /// # Errors
    ///
    /// `Refused` or `Memory`. The tables are unchanged in any case.
    fn tokens_of(
        &mut self,
        alloc: Global,
        user: &UserName,
        repo: &RepoName,
    ) -> Result<Vec<TokenRow>, StoreFault>
        ensures { Reads Self.State self.old self.new result
            (λ t found. AreTokensOf found.items
            (filter (is_held_by (user_text user.now) (repo_text repo.now)) t.tokens)) };

    /// Returns all tokens for the repository, in the order in which they were added.
    ///
    /// # Errors
    ///
    /// `Refused` or `Memory`. The tables are unchanged in any case.
    fn tokens_in(&mut self, alloc: Global, repo: &RepoName) -> Result<Vec<TokenRow>, StoreFault>
        ensures { Reads Self.State self.old self.new result
            (λ t found. AreTokensOf found.items (filter (is_for (repo_text repo.now)) t.tokens)) };

    /// Adds a token, unless one with its digest is stored. Returns whether it was added.
    ///
    /// # Errors
    ///
    /// `Refused` or `Memory`. The tables are unchanged, but a stop may still leave the change.
    fn add_token(&mut self, token: &NewToken<'_>) -> Result<bool, StoreFault>
        ensures { Changes Self.State self.old self.new result (after_add (asked_token token.now))
            (λ t added. has_token token.now.digest.now t ≡ not added) };

    /// Removes the tokens that have expired at this moment, and returns their number.
    ///
    /// # Errors
    ///
    /// `Refused` or `Memory`. The tables are unchanged, but a stop may still leave the change.
    fn remove_expired(&mut self, moment: Moment) -> Result<usize, StoreFault>
        ensures { Changes Self.State self.old self.new result (without_expired (pos moment))
            (λ t n. n ≡ length (filter (has_expired (pos moment)) t.tokens)) };

    /// Returns the object that the repository has under this name.
    ///
    /// # Errors
    ///
    /// `Refused` or `Memory`. The tables are unchanged in any case.
    fn object(&mut self, repo: &RepoName, oid: &Oid) -> Result<Option<ObjectRow>, StoreFault>
        ensures { Reads Self.State self.old self.new result
            (λ t found. IsObjectOf found
            (find (is_object (repo_text repo.now) oid.now) t.uploads)) };

    /// Returns the objects of the repository, or of all repositories, in the order of repositories and names.
    ///
    /// # Errors
    ///
    /// `Refused` or `Memory`. The tables are unchanged in any case.
    fn objects(
        &mut self,
        alloc: Global,
        repo: Option<&RepoName>,
    ) -> Result<Vec<UploadRow>, StoreFault>
        ensures { Reads Self.State self.old self.new result
            (λ t found. AreUploadsOf found.items
            (objects_of (option_map (λ r. repo_text r.now) repo.entry) t)) };

    /// Returns the number of bytes that the repository stores: the sizes of its objects, added up.
    ///
    /// # Errors
    ///
    /// `Refused`, also for a number below 0, or `Memory`. The tables are unchanged in any case.
    fn used(&mut self, repo: &RepoName) -> Result<u64, StoreFault>
        ensures { Reads Self.State self.old self.new result
            (λ t n. pos n ≡ used_of (repo_text repo.now) t) };

    /// Adds the last chunk of a staged upload, makes the upload an object and counts its size, all or nothing, if its
    /// bytes have the name and the size with which it was begun. If the repository already has an object of that name,
    /// the upload stays staged.
    ///
    /// # Errors
    ///
    /// `Refused`, also if no upload is staged under this id, or `Memory`. The tables are unchanged, but a stop may
    /// still leave the change.
    fn complete_upload(
        &mut self,
        id: UploadId,
        last: &LastChunk,
        oid: &Oid,
        size: Size,
    ) -> Result<Completion, StoreFault>
        ensures { Changes Self.State self.old self.new result
            (λ t. normal (after_complete (upload_number id) last.now oid.now (pos size) t))
            (λ t completion. completion_of (upload_number id) oid.now (pos size) t
            ≡ Some completion) };

    /// Removes the chunks of the upload from this number on, if it is staged, and returns whether it is. One with many
    /// chunks is removed so in several transactions, of which none takes much memory or room in the log.
    ///
    /// # Errors
    ///
    /// `Refused` or `Memory`. The tables are unchanged, but a stop may still leave the change.
    fn shorten_upload(&mut self, id: UploadId, n: u32) -> Result<bool, StoreFault>
        ensures { PutsOr Self.State self.old self.new result
            (without_staged_from (upload_number id) (pos n))
            (λ t staged. staged ≡ is_some (staged_with (upload_number id) t)) };

    /// Removes the upload with its chunks, if it is staged, and returns whether it was.
    ///
    /// # Errors
    ///
    /// `Refused` or `Memory`. The tables are unchanged, but a stop may still leave the change.
    fn remove_upload(&mut self, id: UploadId) -> Result<bool, StoreFault>
        ensures { Changes Self.State self.old self.new result (without_staged (upload_number id))
            (λ t removed. removed ≡ is_some (staged_with (upload_number id) t)) };

    /// Begins an upload, and removes the one that its repository has staged, with its chunks. The id is greater than
    /// that of each upload.
    ///
    /// # Errors
    ///
    /// `Refused`, also if a repository has two staged uploads, or `Memory`. The tables are unchanged, but a stop may
    /// still leave the change.
    fn begin_upload(
        &mut self,
        alloc: Global,
        upload: &NewUpload<'_>,
    ) -> Result<UploadId, StoreFault>
        ensures { Begins Self.State self.old self.new result upload.now };

    /// Returns the chunk of the upload with this number, if there is one.
    ///
    /// # Errors
    ///
    /// `Unreadable` if the file of contents fails to return it, but answers other calls; `Refused` or `Memory`. The
    /// tables are unchanged in any case.
    fn chunk(&mut self, upload: UploadId, n: u32) -> Result<Option<ChunkContent>, ReadFault>
        ensures { Reads Self.State self.old self.new (result_behind result)
            (λ t found. IsContentOf found
            (find (is_chunk (upload_number upload) (pos n)) t.chunks)) };

    /// Returns bytes of the content of an upload from the byte `at` on, at most `most` of them, in one read; `None` if the
    /// content is in rows, where its chunks are read one by one.
    ///
    /// # Errors
    ///
    /// `Unreadable` if the file of contents fails to return them, but answers other calls; `Refused` or `Memory`. The
    /// tables are unchanged in any case.
    fn content_at(
        &mut self,
        alloc: Global,
        upload: UploadId,
        at: u64,
        most: usize,
    ) -> Result<Option<Vec<u8>>, ReadFault>
        ensures answers { IsHonest Self.State self.new → HasTables Self.State self.old
            → IfOk result (λ found. IfSome found (λ bytes. IsOpen Self.State self.old
            × IsPortion (upload_number upload) at bytes.items (shown Self.State self.old))) }
        ensures few { IfOk result (λ found. IfSome found (λ bytes. length bytes.items ≤ most)) }
        ensures same { Moves Self.State (λ t. t) self.old self.new }
        ensures adds { AddsNothing Self.State self.old self.new };

    /// Adds a chunk to the upload, under this number. The numbers of an upload's chunks count from 0 up. Until the
    /// upload is complete, a stop may leave none of its chunks.
    ///
    /// # Errors
    ///
    /// `Refused`, also if the upload has a chunk with this number, or `Memory`. The tables are unchanged, but a stop
    /// may still leave the change.
    fn add_chunk(&mut self, upload: UploadId, n: u32, bytes: &[u8]) -> Result<(), StoreFault>
        ensures { PutsOr Self.State self.old self.new result
            (λ t. normal (with_chunk (asked_chunk (upload_number upload) n bytes.now) t))
            (λ _ _. ⊤) };

    /// Returns the upload that the repository has staged, if there is one.
    ///
    /// # Errors
    ///
    /// `Refused`, also if a repository has two staged uploads, or `Memory`. The tables are unchanged in any case.
    fn staged_upload(
        &mut self,
        alloc: Global,
        repo: &RepoName,
    ) -> Result<Option<UploadRow>, StoreFault>
        ensures { Finds Self.State self.old self.new (repo_text repo.now) result };

    /// Returns all staged uploads, in rising ids.
    ///
    /// # Errors
    ///
    /// `Refused` or `Memory`. The tables are unchanged in any case.
    fn staged_uploads(&mut self, alloc: Global) -> Result<Vec<UploadRow>, StoreFault>
        ensures { Reads Self.State self.old self.new result
            (λ t found. AreUploadsOf found.items (filter is_staged t.uploads)) };

    /// Removes the object that the repository has under this name with its chunks, subtracts its size from the number
    /// of bytes that the repository stores, and retires the name, all or nothing. Returns whether there was one.
    ///
    /// # Errors
    ///
    /// `Refused` or `Memory`. The tables are unchanged, but a stop may still leave the change.
    fn retire_object(&mut self, repo: &RepoName, oid: &Oid) -> Result<bool, StoreFault>
        ensures { Changes Self.State self.old self.new result
            (after_retire (repo_text repo.now) oid.now)
            (λ t removed. removed
            ≡ is_some (find (is_object (repo_text repo.now) oid.now) t.uploads)) };

    /// Returns whether the repository has retired this name.
    ///
    /// # Errors
    ///
    /// `Refused` or `Memory`. The tables are unchanged in any case.
    fn is_retired(&mut self, repo: &RepoName, oid: &Oid) -> Result<bool, StoreFault>
        ensures { Reads Self.State self.old self.new result
            (λ t retired. is_some
            (find (is_retired_as (repo_text repo.now) oid.now) t.retired) ≡ retired) };

    /// Returns the names that the repository has retired, in rising order.
    ///
    /// # Errors
    ///
    /// `Refused` or `Memory`. The tables are unchanged in any case.
    fn retired(&mut self, alloc: Global, repo: &RepoName) -> Result<Vec<Oid>, StoreFault>
        ensures { Reads Self.State self.old self.new result
            (λ t names. AreNamesOf names.items
            (by_oid (filter (is_retired_in (repo_text repo.now)) t.retired))) };

    /// Removes the object that the repository has under this name with its chunks, and sets the number of bytes that the
    /// repository stores to the sizes of its other objects, added up, all or nothing. Returns whether there was one. For
    /// an object whose bytes are damaged: unlike a retired name, its name may be stored again.
    ///
    /// # Errors
    ///
    /// `Refused` or `Memory`. The tables are unchanged, but a stop may still leave the change.
    fn discard_object(&mut self, repo: &RepoName, oid: &Oid) -> Result<bool, StoreFault>
        ensures { Changes Self.State self.old self.new result
            (after_discard (repo_text repo.now) oid.now)
            (λ t removed. removed
            ≡ is_some (find (is_object (repo_text repo.now) oid.now) t.uploads)) };

    /// Notes that a content is lost, before its object is removed as a damaged one: the disk did not return what was
    /// written, so nothing is promised of the store from now on, until it is opened anew. Returns false, and changes
    /// nothing, if the store has no file of contents. What the store shows stays in any case.
    fn note_loss(&mut self) -> bool
        ensures noted { result ≡ true → IsHonest Self.State self.new → ⊥ }
        ensures none { result ≡ false → self.new ≡ self.old }
        ensures shown { shown Self.State self.new ≡ shown Self.State self.old };
}
