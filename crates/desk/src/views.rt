//! What a user can learn of a repository; nothing else decides the replies to that user.

use locks::Lock;
use names::{Moment, Oid, Operation, RepoName, Size, UserName};
use policy::Policy;

/// A token of the user for the repository, by the SHA-256 of its text.
#[derive(Clone, Copy, Debug)]
pub struct OwnToken {
    /// The SHA-256 of the token's text.
    pub digest: [u8; 32],
    /// The operation that it was issued for.
    pub operation: Operation,
    /// The moment from which on it is no longer valid.
    pub expires: Moment,
}

/// The name and the size of an object.
#[derive(Clone, Copy, Debug)]
pub struct ObjectSize {
    /// Its name.
    pub name: Oid,
    /// Its size, in bytes.
    pub size: Size,
}

/// What a user can learn of a repository.
#[derive(Debug, Drop)]
pub struct View<'a> {
    /// The user.
    pub user: &'a UserName,
    /// The repository.
    pub repo: &'a RepoName,
    /// The policy.
    pub policy: &'a Policy,
    /// The user's tokens for the repository, in the order of their digests.
    pub tokens: Vec<OwnToken>,
    /// The objects of the repository, in the order of their names, if the user may pull or may push to some ref; else none.
    pub objects: Vec<ObjectSize>,
    /// The names of the objects that the repository removed for good, in rising order, for whoever sees the objects; else
    /// none.
    pub retired: Vec<Oid>,
    /// The locks that the user sees, in rising ids.
    pub locks: Vec<Lock>,
    /// The number of locks that the repository ever made.
    pub made: u32,
    /// The quota less the stored total, in bytes: below 0 once the quota was lowered; 0 if the policy has no such
    /// repository.
    pub room: i128,
}
