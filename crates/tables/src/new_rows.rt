//! The rows that the calls add.

ghost use Rattle.std.specs.Prelude.{◌≤◌};
ghost use Rattle.names.specs.Texts.{last_moment};

use names::{LockPath, Moment, Oid, Operation, RefName, RepoName, Size, UserName};

/// A lock to be made.
#[derive(Clone, Copy, Debug)]
pub struct NewLock<'a> {
    pub repo: &'a RepoName,
    pub ref_name: &'a RefName,
    pub path: &'a LockPath,
    pub owner: &'a UserName,
    pub moment: Moment,
    pub ghost in_range: { moment ≤ last_moment },
}

/// A token to be stored.
#[derive(Clone, Copy, Debug)]
pub struct NewToken<'a> {
    /// The SHA-256 of the token's text.
    pub digest: &'a [u8; 32],
    pub user: &'a UserName,
    pub repo: &'a RepoName,
    pub operation: Operation,
    /// The first moment at which it is no longer valid.
    pub expires: Moment,
}

/// An upload to be begun, or an object to be added as it is.
#[derive(Clone, Copy, Debug)]
pub struct NewUpload<'a> {
    pub repo: &'a RepoName,
    /// The name that its bytes are to have: their SHA-256.
    pub oid: &'a Oid,
    /// The number of its bytes.
    pub size: Size,
}

/// A chunk of an object that is added as it is.
#[derive(Clone, Copy, Debug)]
pub struct NewChunk<'a> {
    pub n: u32,
    pub bytes: &'a [u8],
}

/// The last chunk of an upload, which is added when the upload is completed.
#[derive(Debug, Drop)]
pub struct LastChunk {
    /// Its number: the number of chunks before it.
    pub n: u32,
    /// Its bytes. If there are none, the chunks before it have all bytes of the upload, and no chunk is added.
    pub bytes: Vec<u8>,
}
