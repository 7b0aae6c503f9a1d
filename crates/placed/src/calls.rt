//! The calls.

use crate::place::PLACE_NUMBER;
use crate::placed::Placed;
use crate::reading::read_piece;
use names::{LockId, LockPath, Moment, Oid, RefName, RepoName, Size, UserName};
use sqlite_disk::Disk;
use std::alloc::Global;
use store::{ChunkContent, ReadFault, Room, Store};
use tables::{
    Completion, Creation, LastChunk, LockRow, NewLock, NewToken, NewUpload, ObjectRow, StoreFault,
    TokenRow, UploadId, UploadRow,
};

impl<T: Store, D: Disk> Store for Placed<T, D> {
    fn may_be_used(&self) -> bool {
        self.rows.may_be_used() && self.disk.may_be_used()
    }

    fn room(&mut self) -> Result<Option<Room>, StoreFault> {
        if !self.disk.may_be_used() {
            return Err(StoreFault::Refused);
        }
        let Ok(size) = self.disk.len() else {
            return Err(StoreFault::Refused);
        };
        Ok(Some(Room {
            kept: self.regions.total(),
            free: self.regions.free(),
            size: size as u64,
        }))
    }

    fn made(&mut self, repo: &RepoName) -> Result<u32, StoreFault> {
        self.rows.made(repo)
    }

    fn lock_at(
        &mut self,
        repo: &RepoName,
        ref_name: &RefName,
        path: &LockPath,
    ) -> Result<Option<LockRow>, StoreFault> {
        self.rows.lock_at(repo, ref_name, path)
    }

    fn lock_with_id(&mut self, repo: &RepoName, id: LockId) -> Result<Option<LockRow>, StoreFault> {
        self.rows.lock_with_id(repo, id)
    }

    fn locks_in(&mut self, alloc: Global, repo: &RepoName) -> Result<Vec<LockRow>, StoreFault> {
        self.rows.locks_in(alloc, repo)
    }

    fn locks_from(
        &mut self,
        alloc: Global,
        repo: &RepoName,
        id: LockId,
    ) -> Result<Vec<LockRow>, StoreFault> {
        self.rows.locks_from(alloc, repo, id)
    }

    fn create_lock(&mut self, lock: &NewLock<'_>) -> Result<Creation, StoreFault> {
        self.rows.create_lock(lock)
    }

    fn remove_lock(&mut self, repo: &RepoName, id: LockId) -> Result<usize, StoreFault> {
        self.rows.remove_lock(repo, id)
    }

    fn token(&mut self, digest: &[u8; 32]) -> Result<Option<TokenRow>, StoreFault> {
        self.rows.token(digest)
    }

    fn tokens_of(
        &mut self,
        alloc: Global,
        user: &UserName,
        repo: &RepoName,
    ) -> Result<Vec<TokenRow>, StoreFault> {
        self.rows.tokens_of(alloc, user, repo)
    }

    fn tokens_in(&mut self, alloc: Global, repo: &RepoName) -> Result<Vec<TokenRow>, StoreFault> {
        self.rows.tokens_in(alloc, repo)
    }

    fn add_token(&mut self, token: &NewToken<'_>) -> Result<bool, StoreFault> {
        self.rows.add_token(token)
    }

    fn remove_expired(&mut self, moment: Moment) -> Result<usize, StoreFault> {
        self.rows.remove_expired(moment)
    }

    fn object(&mut self, repo: &RepoName, oid: &Oid) -> Result<Option<ObjectRow>, StoreFault> {
        self.rows.object(repo, oid)
    }

    fn objects(
        &mut self,
        alloc: Global,
        repo: Option<&RepoName>,
    ) -> Result<Vec<UploadRow>, StoreFault> {
        self.rows.objects(alloc, repo)
    }

    fn used(&mut self, repo: &RepoName) -> Result<u64, StoreFault> {
        self.rows.used(repo)
    }

    fn complete_upload(
        &mut self,
        id: UploadId,
        last: &LastChunk,
        oid: &Oid,
        size: Size,
    ) -> Result<Completion, StoreFault> {
        self.complete(id, last, oid, size)
    }

    fn shorten_upload(&mut self, id: UploadId, n: u32) -> Result<bool, StoreFault> {
        self.shorten(id, n)
    }

    fn remove_upload(&mut self, id: UploadId) -> Result<bool, StoreFault> {
        self.remove(id)
    }

    fn begin_upload(
        &mut self,
        alloc: Global,
        upload: &NewUpload<'_>,
    ) -> Result<UploadId, StoreFault> {
        self.begin(alloc, upload)
    }

    fn chunk(&mut self, upload: UploadId, n: u32) -> Result<Option<ChunkContent>, ReadFault> {
        if n == PLACE_NUMBER {
            return Err(ReadFault::Store(StoreFault::Refused));
        }
        if let Some(chunk) = self.rows.chunk(upload, n)? {
            return Ok(Some(chunk));
        }
        let Some(region) = self.region_of(upload)? else {
            return Ok(None);
        };
        match read_piece(self.alloc, &mut self.disk, region, n)? {
            Some(bytes) => Ok(Some(ChunkContent::Bytes(bytes))),
            None => Ok(None),
        }
    }

    fn content_at(
        &mut self,
        alloc: Global,
        upload: UploadId,
        at: u64,
        most: usize,
    ) -> Result<Option<Vec<u8>>, ReadFault> {
        self.portion(alloc, upload, at, most)
    }

    fn add_chunk(&mut self, upload: UploadId, n: u32, bytes: &[u8]) -> Result<(), StoreFault> {
        self.add_piece(upload, n, bytes)
    }

    fn staged_upload(
        &mut self,
        alloc: Global,
        repo: &RepoName,
    ) -> Result<Option<UploadRow>, StoreFault> {
        self.rows.staged_upload(alloc, repo)
    }

    fn staged_uploads(&mut self, alloc: Global) -> Result<Vec<UploadRow>, StoreFault> {
        self.rows.staged_uploads(alloc)
    }

    fn retire_object(&mut self, repo: &RepoName, oid: &Oid) -> Result<bool, StoreFault> {
        self.retire(repo, oid)
    }

    fn is_retired(&mut self, repo: &RepoName, oid: &Oid) -> Result<bool, StoreFault> {
        self.rows.is_retired(repo, oid)
    }

    fn retired(&mut self, alloc: Global, repo: &RepoName) -> Result<Vec<Oid>, StoreFault> {
        self.rows.retired(alloc, repo)
    }

    fn discard_object(&mut self, repo: &RepoName, oid: &Oid) -> Result<bool, StoreFault> {
        self.discard(repo, oid)
    }

    fn note_loss(&mut self) -> bool {
        self.has_lost = true;
        true
    }
}
