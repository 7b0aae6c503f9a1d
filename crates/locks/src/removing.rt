//! Removes locks.

ghost use Rattle.names.specs.Names.{repo_text};
ghost use Rattle.refinement.specs.Left.{From};
ghost use Rattle.locks.specs.Removing.{Removes};

use names::{LockId, RepoName};
use store::Store;
use tables::StoreFault;

/// Removes the lock with the id, and returns whether there was one. Its id is not used again.
///
/// # Errors
///
/// `Refused` or `Memory`, which leave the contents of the store unchanged; but the lock may be gone
/// after a stop.
pub fn remove<S: Store>(store: &mut S, repo: &RepoName, id: LockId) -> Result<bool, StoreFault>
    ensures { From S.State store.old store.new (λ world.
        Removes S.State world (repo_text repo.now) id store.old store.new result) }
{
    Ok(store.remove_lock(repo, id)? > 0)
}
