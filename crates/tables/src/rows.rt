//! The rows that the calls return.

ghost use Rattle.std.specs.Prelude.{◌≡◌, ◌≢◌, ◌<◌, pos, length, IfOk, MatchOption, map, slice_get};
ghost use Rattle.tables.specs.Rows.{Lock, Token, Upload, Chunk};
ghost use Rattle.tables.specs.Statements.{show_lock, show_token, show_upload, show_numbered};
ghost use Rattle.tables.specs.Staging.{upload_number, upload_fields, read_upload, IsUploadOf, AreUploadsOf, numbered_fields, read_numbered, AreNumbered};
ghost use Rattle.tables.specs.Steps.{IsLockOf, AreLocksOf, lock_fields, read_lock, IsTokenOf, AreTokensOf, token_fields, read_token, code_of};
ghost use Rattle.tables.specs.Ranges.{IsLockInRange, IsTokenInRange};

use crate::fault::StoreFault;
use names::{LockId, LockPath, Moment, Oid, Operation, RefName, RepoName, Size, UserName};
use sqlite::Row;
use std::alloc::{AllocError, Global};

/// A lock, without its repository, which the caller knows.
#[derive(Debug, Drop)]
pub struct LockRow {
    /// Counted from 1 in the repository, and never reused.
    pub id: LockId,
    pub ref_name: RefName,
    pub path: LockPath,
    pub owner: UserName,
    /// When it was made.
    pub moment: Moment,
}

/// The result of a lock request.
#[derive(Debug, Drop)]
pub enum Creation {
    /// The lock was made, under this id.
    Created(LockId),
    /// This lock holds the path.
    Held(LockRow),
    /// The repository has made 4,294,967,295 locks.
    UsedUp,
}

/// A token that was issued.
#[derive(Debug, Drop)]
pub struct TokenRow {
    pub digest: [u8; 32],
    pub user: UserName,
    pub repo: RepoName,
    pub operation: Operation,
    pub expires: Moment,
}

/// Identifies an upload: a number greater than those of all uploads that the database had when it was begun.
#[derive(Clone, Copy, Debug, PartialEq, Eq)]
pub struct UploadId {
    pub(crate) number: i64,
}

impl UploadId {
    /// Its number in the database.
    pub fn number(self) -> i64
        ensures { result ≡ upload_number self }
    {
        self.number
    }
}

/// An upload, staged or complete.
#[derive(Debug, Drop)]
pub struct UploadRow {
    pub id: UploadId,
    pub repo: RepoName,
    /// The name with which it was begun: the SHA-256 of its bytes, once it is complete.
    pub oid: Oid,
    /// The number of its bytes, once it is complete.
    pub size: Size,
}

/// A chunk that was found by its number.
#[derive(Debug, Drop)]
pub struct NumberedChunk {
    /// The upload that it is of.
    pub upload: UploadId,
    pub bytes: Vec<u8>,
}

/// A repository with its counts.
#[derive(Debug, Drop)]
pub struct RepoRow {
    pub name: RepoName,
    /// The number of locks that it ever made.
    pub made: u32,
    /// The number of bytes that it stores.
    pub used: u64,
}

/// A lock with its repository.
#[derive(Debug, Drop)]
pub struct RepoLock {
    pub repo: RepoName,
    pub lock: LockRow,
}

/// A name that a repository has retired.
#[derive(Debug, Drop)]
pub struct RetiredRow {
    pub repo: RepoName,
    pub oid: Oid,
}

/// An upload with its mark.
#[derive(Debug, Drop)]
pub struct MarkedUpload {
    pub upload: UploadRow,
    /// Whether it is an object; if not, it is staged.
    pub is_complete: bool,
}

/// Which chunk of which upload a chunk is.
#[derive(Clone, Copy, Debug)]
pub struct ChunkKey {
    pub upload: UploadId,
    pub n: u32,
}

/// An object: a complete upload, without its names, which the caller knows.
#[derive(Clone, Copy, Debug)]
pub struct ObjectRow {
    pub id: UploadId,
    /// The number of its bytes.
    pub size: Size,
}

/// The result of completing an upload.
#[derive(Clone, Copy, Debug, PartialEq, Eq)]
pub enum Completion {
    /// The upload is an object now, and its size is counted.
    New,
    /// The repository has an object of this name. The upload is still staged.
    Already,
    /// The name or the size differs from that with which the upload was begun. It is still staged.
    Differs,
}

/// The result of migrating a database.
#[derive(Clone, Copy, Debug, PartialEq, Eq)]
pub enum Migrated {
    /// It was of version 1, and is of version 2 now.
    From1,
    /// It was of version 2, or it had none of our tables and has those of version 2 now.
    Already,
}

/// The number of the operation in the database.
pub(crate) fn code_of(operation: Operation) -> u32
    ensures { pos result ≡ code_of operation }
{
    match operation {
        Operation::Download => 1,
        Operation::Upload => 2,
    }
}

/// The operation of this number in the database.
fn operation_of(code: u32) -> Option<Operation>
    ensures { MatchOption result
        ((operation : _) → code_of operation ≢ pos code)
        (λ operation. code_of operation ≡ pos code) }
{
    match code {
        1 => Some(Operation::Download),
        2 => Some(Operation::Upload),
        _ => None,
    }
}

/// The second of the moment since 1970, as the database stores it.
pub(crate) fn second_of(moment: Moment) -> i64
    ensures { result ≡ pos moment }
{
    moment.get() as i64
}

/// The 32 bytes of a digest; `None` for any other number of bytes.
fn digest_of(bytes: &[u8]) -> Option<[u8; 32]>
    ensures { MatchOption result (length bytes.now ≢ 32) (λ digest. digest ≡ bytes.now) }
{
    Some(*bytes.as_array()?)
}

/// The lock in a row. A row that is out of range is refused.
fn lock_from(row: &Row) -> Result<LockRow, StoreFault>
    ensures value { (l : Lock) → row.now ≡ show_lock l → IfOk result
        (λ found. read_lock found ≡ lock_fields l) }
    ensures in_range { (l : Lock) → row.now ≡ show_lock l → IfOk result (λ _. IsLockInRange l) }
    ensures refused { (l : Lock) → row.now ≡ show_lock l → IsLockInRange l
        → result ≢ Err StoreFault.Refused }
{
    Ok(LockRow {
        id: LockId::from_number(row.get(0)?).ok_or(StoreFault::Refused)?,
        ref_name: RefName::read(row.get(1)?).ok_or(StoreFault::Refused)?,
        path: LockPath::read(row.get(2)?).ok_or(StoreFault::Refused)?,
        owner: UserName::read(row.get(3)?).ok_or(StoreFault::Refused)?,
        moment: Moment::read(row.get(4)?).ok_or(StoreFault::Refused)?,
    })
}

/// The token in a row. A row that is out of range is refused.
fn token_from(row: &Row) -> Result<TokenRow, StoreFault>
    ensures value { (t : Token) → row.now ≡ show_token t → IfOk result
        (λ found. read_token found ≡ token_fields t) }
    ensures in_range { (t : Token) → row.now ≡ show_token t → IfOk result (λ _. IsTokenInRange t) }
    ensures refused { (t : Token) → row.now ≡ show_token t → IsTokenInRange t
        → result ≢ Err StoreFault.Refused }
{
    let digest: Vec<u8> = row.get(0)?;
    Ok(TokenRow {
        digest: digest_of(digest.as_slice()).ok_or(StoreFault::Refused)?,
        user: UserName::read(row.get(1)?).ok_or(StoreFault::Refused)?,
        repo: RepoName::read(row.get(2)?).ok_or(StoreFault::Refused)?,
        operation: operation_of(row.get(3)?).ok_or(StoreFault::Refused)?,
        expires: Moment::read(row.get(4)?).ok_or(StoreFault::Refused)?,
    })
}

/// The upload in a row. A row that is out of range is refused.
pub(crate) fn upload_from(row: &Row) -> Result<UploadRow, StoreFault>
    ensures { (u : Upload) → row.now ≡ show_upload u → IfOk result
        (λ found. read_upload found ≡ upload_fields u) }
{
    let oid: String = row.get(2)?;
    Ok(UploadRow {
        id: UploadId {
            number: row.get(0)?,
        },
        repo: RepoName::read(row.get(1)?).ok_or(StoreFault::Refused)?,
        oid: Oid::read(oid.as_bytes()).ok_or(StoreFault::Refused)?,
        size: Size::read(row.get(3)?).ok_or(StoreFault::Refused)?,
    })
}

/// The chunk in a row that has its upload and its bytes. A row that is out of range is refused.
fn numbered_from(row: &Row) -> Result<NumberedChunk, StoreFault>
    ensures { (c : Chunk) → row.now ≡ show_numbered c → IfOk result
        (λ found. read_numbered found ≡ numbered_fields c) }
{
    Ok(NumberedChunk {
        upload: UploadId {
            number: row.get(0)?,
        },
        bytes: row.get(1)?,
    })
}

/// The upload in the first of the rows.
pub(crate) fn first_upload(rows: &[Row]) -> Result<Option<UploadRow>, StoreFault>
    ensures { (uploads : _) → rows.now ≡ map show_upload uploads → IfOk result
        (λ found. IsUploadOf found (slice_get uploads 0)) }
{
    match rows.first() {
        None => Ok(None),
        Some(row) => Ok(Some(upload_from(row)?)),
    }
}

/// The lock in the first of the rows.
pub(crate) fn first_lock(rows: &[Row]) -> Result<Option<LockRow>, StoreFault>
    ensures { (locks : _) → rows.now ≡ map show_lock locks → IfOk result
        (λ found. IsLockOf found (slice_get locks 0)) }
{
    match rows.first() {
        None => Ok(None),
        Some(row) => Ok(Some(lock_from(row)?)),
    }
}

/// The token in the first of the rows.
pub(crate) fn first_token(rows: &[Row]) -> Result<Option<TokenRow>, StoreFault>
    ensures { (tokens : _) → rows.now ≡ map show_token tokens → IfOk result
        (λ found. IsTokenOf found (slice_get tokens 0)) }
{
    match rows.first() {
        None => Ok(None),
        Some(row) => Ok(Some(token_from(row)?)),
    }
}

pub(crate) fn all_locks(alloc: Global, rows: &[Row]) -> Result<Vec<LockRow>, StoreFault>
    ensures { (locks : _) → rows.now ≡ map show_lock locks → IfOk result
        (λ found. AreLocksOf found.items locks) }
{
    let mut found = Vec::with_capacity(alloc, rows.len())?;
    for row in rows {
        let lock = lock_from(row)?;
        found.push(lock).map_err(AllocError::from)?;
    }
    Ok(found)
}

pub(crate) fn all_tokens(alloc: Global, rows: &[Row]) -> Result<Vec<TokenRow>, StoreFault>
    ensures { (tokens : _) → rows.now ≡ map show_token tokens → IfOk result
        (λ found. AreTokensOf found.items tokens) }
{
    let mut found = Vec::with_capacity(alloc, rows.len())?;
    for row in rows {
        let token = token_from(row)?;
        found.push(token).map_err(AllocError::from)?;
    }
    Ok(found)
}

pub(crate) fn all_uploads(alloc: Global, rows: &[Row]) -> Result<Vec<UploadRow>, StoreFault>
    ensures { (uploads : _) → rows.now ≡ map show_upload uploads → IfOk result
        (λ found. AreUploadsOf found.items uploads) }
{
    let mut found = Vec::with_capacity(alloc, rows.len())?;
    for row in rows {
        let upload = upload_from(row)?;
        found.push(upload).map_err(AllocError::from)?;
    }
    Ok(found)
}

pub(crate) fn all_numbered(alloc: Global, rows: &[Row]) -> Result<Vec<NumberedChunk>, StoreFault>
    ensures { (chunks : _) → rows.now ≡ map show_numbered chunks → IfOk result
        (λ found. AreNumbered found.items chunks) }
{
    let mut found = Vec::with_capacity(alloc, rows.len())?;
    for row in rows {
        let chunk = numbered_from(row)?;
        found.push(chunk).map_err(AllocError::from)?;
    }
    Ok(found)
}
