//! A database alone.

ghost use Rattle.store.specs.Database.{alone};

use crate::content::{ChunkContent, content_in};
use crate::read_fault::ReadFault;
use crate::room::Room;
use crate::state::State;
use crate::store::Store;
use names::{LockId, LockPath, Moment, Oid, RefName, RepoName, Size, UserName};
use std::alloc::Global;
use tables::{
    Alter, Completion, Creation, LastChunk, LockRow, NewLock, NewToken, NewUpload, ObjectRow,
    StoreFault, TokenRow, UploadId, UploadRow,
};

impl<S: Alter> State for tables::Store<S> {
    ghost is_honest = { (alone S.Store).is_honest };

    ghost is_open = { (alone S.Store).is_open };

    ghost has_tables = { (alone S.Store).has_tables };

    ghost shown = { (alone S.Store).shown };

    ghost leaves = { (alone S.Store).leaves };

    ghost is_safe = { (alone S.Store).is_safe };

    ghost is_usable = { (alone S.Store).is_usable };

    ghost has_room = { (alone S.Store).has_room };
}

impl<S: Alter> Store for tables::Store<S> {
    fn may_be_used(&self) -> bool {
        true
    }

    fn room(&mut self) -> Result<Option<Room>, StoreFault> {
        Ok(None)
    }

    fn made(&mut self, repo: &RepoName) -> Result<u32, StoreFault> {
        tables::Store::made(self, repo)
    }

    fn lock_at(
        &mut self,
        repo: &RepoName,
        ref_name: &RefName,
        path: &LockPath,
    ) -> Result<Option<LockRow>, StoreFault> {
        tables::Store::lock_at(self, repo, ref_name, path)
    }

    fn lock_with_id(&mut self, repo: &RepoName, id: LockId) -> Result<Option<LockRow>, StoreFault> {
        tables::Store::lock_with_id(self, repo, id)
    }

    fn locks_in(&mut self, alloc: Global, repo: &RepoName) -> Result<Vec<LockRow>, StoreFault> {
        tables::Store::locks_in(self, alloc, repo)
    }

    fn locks_from(
        &mut self,
        alloc: Global,
        repo: &RepoName,
        id: LockId,
    ) -> Result<Vec<LockRow>, StoreFault> {
        tables::Store::locks_from(self, alloc, repo, id)
    }

    fn create_lock(&mut self, lock: &NewLock<'_>) -> Result<Creation, StoreFault> {
        tables::Store::create_lock(self, lock)
    }

    fn remove_lock(&mut self, repo: &RepoName, id: LockId) -> Result<usize, StoreFault> {
        tables::Store::remove_lock(self, repo, id)
    }

    fn token(&mut self, digest: &[u8; 32]) -> Result<Option<TokenRow>, StoreFault> {
        tables::Store::token(self, digest)
    }

    fn tokens_of(
        &mut self,
        alloc: Global,
        user: &UserName,
        repo: &RepoName,
    ) -> Result<Vec<TokenRow>, StoreFault> {
        tables::Store::tokens_of(self, alloc, user, repo)
    }

    fn tokens_in(&mut self, alloc: Global, repo: &RepoName) -> Result<Vec<TokenRow>, StoreFault> {
        tables::Store::tokens_in(self, alloc, repo)
    }

    fn add_token(&mut self, token: &NewToken<'_>) -> Result<bool, StoreFault> {
        tables::Store::add_token(self, token)
    }

    fn remove_expired(&mut self, moment: Moment) -> Result<usize, StoreFault> {
        tables::Store::remove_expired(self, moment)
    }

    fn object(&mut self, repo: &RepoName, oid: &Oid) -> Result<Option<ObjectRow>, StoreFault> {
        tables::Store::object(self, repo, oid)
    }

    fn objects(
        &mut self,
        alloc: Global,
        repo: Option<&RepoName>,
    ) -> Result<Vec<UploadRow>, StoreFault> {
        tables::Store::objects(self, alloc, repo)
    }

    fn used(&mut self, repo: &RepoName) -> Result<u64, StoreFault> {
        tables::Store::used(self, repo)
    }

    fn complete_upload(
        &mut self,
        id: UploadId,
        last: &LastChunk,
        oid: &Oid,
        size: Size,
    ) -> Result<Completion, StoreFault> {
        tables::Store::complete_upload(self, id, last, oid, size)
    }

    fn shorten_upload(&mut self, id: UploadId, n: u32) -> Result<bool, StoreFault> {
        tables::Store::shorten_upload(self, id, n)
    }

    fn remove_upload(&mut self, id: UploadId) -> Result<bool, StoreFault> {
        tables::Store::remove_upload(self, id)
    }

    fn begin_upload(
        &mut self,
        alloc: Global,
        upload: &NewUpload<'_>,
    ) -> Result<UploadId, StoreFault> {
        tables::Store::begin_upload(self, alloc, upload)
    }

    fn chunk(&mut self, upload: UploadId, n: u32) -> Result<Option<ChunkContent>, ReadFault> {
        match tables::Store::chunk(self, upload, n) {
            Ok(row) => Ok(content_in(row)),
            Err(fault) => Err(ReadFault::Store(fault)),
        }
    }

    fn content_at(
        &mut self,
        _alloc: Global,
        _upload: UploadId,
        _at: u64,
        _most: usize,
    ) -> Result<Option<Vec<u8>>, ReadFault> {
        Ok(None)
    }

    fn add_chunk(&mut self, upload: UploadId, n: u32, bytes: &[u8]) -> Result<(), StoreFault> {
        tables::Store::add_chunk(self, upload, n, bytes)
    }

    fn staged_upload(
        &mut self,
        alloc: Global,
        repo: &RepoName,
    ) -> Result<Option<UploadRow>, StoreFault> {
        tables::Store::staged_upload(self, alloc, repo)
    }

    fn staged_uploads(&mut self, alloc: Global) -> Result<Vec<UploadRow>, StoreFault> {
        tables::Store::staged_uploads(self, alloc)
    }

    fn retire_object(&mut self, repo: &RepoName, oid: &Oid) -> Result<bool, StoreFault> {
        tables::Store::retire_object(self, repo, oid)
    }

    fn is_retired(&mut self, repo: &RepoName, oid: &Oid) -> Result<bool, StoreFault> {
        tables::Store::is_retired(self, repo, oid)
    }

    fn retired(&mut self, alloc: Global, repo: &RepoName) -> Result<Vec<Oid>, StoreFault> {
        tables::Store::retired(self, alloc, repo)
    }

    fn discard_object(&mut self, repo: &RepoName, oid: &Oid) -> Result<bool, StoreFault> {
        tables::Store::discard_object(self, repo, oid)
    }

    fn note_loss(&mut self) -> bool {
        false
    }
}
