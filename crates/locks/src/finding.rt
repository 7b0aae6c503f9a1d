//! Finds locks.

ghost use Rattle.std.specs.Prelude.{◌≡◌, IfOk, nat_le, map, filter, take, option_map};
ghost use Rattle.names.specs.Names.{repo_text, ref_text, path_text};
ghost use Rattle.model.specs.RepoState.{locks_of};
ghost use Rattle.refinement.specs.Left.{Reads};
ghost use Rattle.locks.specs.Finding.{lock_seen, lock_on, lock_with};

use names::{LockId, LockPath, RefName, RepoName};
use std::alloc::Global;
use store::Store;
use tables::{LockRow, StoreFault};

/// Returns the number of locks that the repository ever made.
///
/// # Errors
///
/// `Refused` or `Memory`. The contents of the store are unchanged in any case.
pub fn made<S: Store>(store: &mut S, repo: &RepoName) -> Result<u32, StoreFault>
    ensures { Reads S.State store.old store.new (λ world.
        IfOk result (λ n. n ≡ world.made (repo_text repo.now))) }
{
    store.made(repo)
}

/// Returns the lock on the path of the ref, if the path is locked.
///
/// # Errors
///
/// `Refused` or `Memory`. The contents of the store are unchanged in any case.
pub fn at<S: Store>(
    store: &mut S,
    repo: &RepoName,
    ref_name: &RefName,
    path: &LockPath,
) -> Result<Option<LockRow>, StoreFault>
    ensures { Reads S.State store.old store.new (λ world.
        IfOk result (λ found. option_map (lock_seen (repo_text repo.now)) found
        ≡ lock_on (repo_text repo.now) (ref_text ref_name.now) (path_text path.now) world)) }
{
    store.lock_at(repo, ref_name, path)
}

/// Returns the lock with the id, if there is one.
///
/// # Errors
///
/// `Refused` or `Memory`. The contents of the store are unchanged in any case.
pub fn get<S: Store>(
    store: &mut S,
    repo: &RepoName,
    id: LockId,
) -> Result<Option<LockRow>, StoreFault>
    ensures { Reads S.State store.old store.new (λ world.
        IfOk result (λ found. option_map (lock_seen (repo_text repo.now)) found
        ≡ lock_with (repo_text repo.now) id world)) }
{
    store.lock_with_id(repo, id)
}

/// Returns all locks of the repository, in rising ids.
///
/// # Errors
///
/// `Refused` or `Memory`. The contents of the store are unchanged in any case.
pub fn all<S: Store>(
    alloc: Global,
    store: &mut S,
    repo: &RepoName,
) -> Result<Vec<LockRow>, StoreFault>
    ensures { Reads S.State store.old store.new (λ world.
        IfOk result (λ found. map (lock_seen (repo_text repo.now)) found.items
        ≡ locks_of (repo_text repo.now) world)) }
{
    store.locks_in(alloc, repo)
}

/// Returns the first 64 locks of the repository whose ids are this one or later, in rising ids.
///
/// # Errors
///
/// `Refused` or `Memory`. The contents of the store are unchanged in any case.
pub fn window<S: Store>(
    alloc: Global,
    store: &mut S,
    repo: &RepoName,
    id: LockId,
) -> Result<Vec<LockRow>, StoreFault>
    ensures { Reads S.State store.old store.new (λ world.
        IfOk result (λ found. map (lock_seen (repo_text repo.now)) found.items
        ≡ take 64 (filter (λ l. nat_le id l.id) (locks_of (repo_text repo.now) world)))) }
{
    store.locks_from(alloc, repo, id)
}
