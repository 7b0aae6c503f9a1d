//! Counts what a repository uses.

ghost use Rattle.std.specs.Prelude.{◌≡◌, length, IfOk};
ghost use Rattle.names.specs.Names.{repo_text};
ghost use Rattle.model.specs.RepoState.{locks_of, objects_of};
ghost use Rattle.refinement.specs.Left.{Reads};
ghost use Rattle.operator.specs.Tokens.{valid_in};
ghost use Rattle.operator.specs.Usage.{HasStaged, Uses};

use crate::listing_tokens::valid_tokens;
use names::{Moment, RepoName, Size};
use std::alloc::Global;
use store::Store;
use tables::StoreFault;

/// What a repository uses.
#[derive(Clone, Copy, Debug)]
pub(crate) struct Usage {
    /// The number of its objects.
    pub(crate) objects: u64,
    /// The sizes of its objects, added up: what counts against the quota.
    pub(crate) bytes: u64,
    /// The size of the upload that it has staged, if one is.
    pub(crate) staged: Option<Size>,
    /// The number of its locks.
    pub(crate) locks: u64,
    /// The number of the tokens for it that are valid.
    pub(crate) tokens: u64,
}

/// The number of the repository's objects.
fn object_count<S: Store>(alloc: Global, store: &mut S, repo: &RepoName) -> Result<u64, StoreFault>
    ensures { Reads S.State store.old store.new (λ world.
        IfOk result (λ n. n ≡ length (objects_of (repo_text repo.now) world))) }
{
    Ok(uploads::all(alloc, store, Some(repo))?.len() as u64)
}

/// The number of the repository's locks.
fn lock_count<S: Store>(alloc: Global, store: &mut S, repo: &RepoName) -> Result<u64, StoreFault>
    ensures { Reads S.State store.old store.new (λ world.
        IfOk result (λ n. n ≡ length (locks_of (repo_text repo.now) world))) }
{
    Ok(locks::all(alloc, store, repo)?.len() as u64)
}

/// The number of the tokens for the repository that are valid at the moment.
fn token_count<S: Store>(
    alloc: Global,
    store: &mut S,
    repo: &RepoName,
    now: Moment,
) -> Result<u64, StoreFault>
    ensures { Reads S.State store.old store.new (λ world.
        IfOk result (λ n. n ≡ length (valid_in (repo_text repo.now) now world))) }
{
    Ok(valid_tokens(alloc, store, repo, now)?.len() as u64)
}

/// The size of the upload that the repository has staged, if one is.
fn staged_size<S: Store>(
    alloc: Global,
    store: &mut S,
    repo: &RepoName,
) -> Result<Option<Size>, StoreFault>
    ensures { Reads S.State store.old store.new (λ world.
        IfOk result (HasStaged S.State store.new (repo_text repo.now))) }
{
    match store.staged_upload(alloc, repo)? {
        Some(upload) => Ok(Some(upload.size)),
        None => Ok(None),
    }
}

/// Returns what the repository uses, with the tokens that are valid at the moment. The rows of its objects, then those
/// of its locks, then those of its tokens are in memory. No number overflows: `bytes` is the number that the store keeps,
/// and the others are numbers of rows.
///
/// # Errors
///
/// `Refused` or `Memory`. The contents of the store are unchanged in any case.
pub(crate) fn usage_of<S: Store>(
    alloc: Global,
    store: &mut S,
    repo: &RepoName,
    now: Moment,
) -> Result<Usage, StoreFault>
    ensures { Reads S.State store.old store.new (λ world.
        IfOk result (Uses S.State world store.new (repo_text repo.now) now)) }
{
    let objects = object_count(alloc, store, repo)?;
    let bytes = uploads::used(store, repo)?;
    let locks = lock_count(alloc, store, repo)?;
    let tokens = token_count(alloc, store, repo, now)?;
    let staged = staged_size(alloc, store, repo)?;
    Ok(Usage {
        objects,
        bytes,
        staged,
        locks,
        tokens,
    })
}
