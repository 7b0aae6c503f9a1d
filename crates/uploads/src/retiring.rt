//! Removes objects for good.

ghost use Rattle.std.specs.Prelude.{◌≡◌, IfOk, OnOk};
ghost use Rattle.names.specs.Names.{repo_text};
ghost use Rattle.model.specs.Operator.{removed_now, removal_of};
ghost use Rattle.refinement.specs.Left.{From, Keeps, Reads};
ghost use Rattle.refinement.specs.Staging.{StagesNoneIn};
ghost use Rattle.uploads.specs.Retiring.{IsSeen, Retires};

use crate::finding::{find, is_retired};
use crate::removing::shorten;
use names::{Oid, RepoName};
use std::alloc::Global;
use store::Store;
use tables::StoreFault;

/// What became of an object that is removed for good.
#[derive(Clone, Copy, Debug, PartialEq, Eq)]
pub enum Retired {
    /// It was removed now.
    Now,
    /// It was removed before.
    Already,
    /// The repository has no object of this name, and never removed one.
    Unknown,
}

/// Removes the upload that the repository has staged, if it has one.
fn clear_staged<S: Store>(alloc: Global, store: &mut S, repo: &RepoName) -> Result<(), StoreFault>
    ensures { From S.State store.old store.new (λ world. Keeps S.State store.old store.new world
        × OnOk result (StagesNoneIn S.State store.new (repo_text repo.now))) }
{
    let Some(staged) = store.staged_upload(alloc, repo)? else {
        return Ok(());
    };
    shorten(store, staged.id)?;
    store.remove_upload(staged.id)?;
    Ok(())
}

/// Removes the object, which the repository has, and retires its name, in one transaction. What the repository has staged
/// is removed before.
fn remove<S: Store>(
    alloc: Global,
    store: &mut S,
    repo: &RepoName,
    oid: Oid,
) -> Result<Retired, StoreFault>
    ensures { From S.State store.old store.new (λ world. removal_of world (repo_text repo.now) oid ≡ removed_now
        → Retires S.State world (repo_text repo.now) oid store.old store.new result) }
{
    clear_staged(alloc, store, repo)?;
    if store.retire_object(repo, &oid)? {
        Ok(Retired::Now)
    } else {
        Ok(Retired::Unknown)
    }
}

/// Why there is no object to remove; `None` if there is one.
fn nothing_to_remove<S: Store>(
    store: &mut S,
    repo: &RepoName,
    oid: &Oid,
) -> Result<Option<Retired>, StoreFault>
    ensures { Reads S.State store.old store.new (λ world.
        IfOk result (IsSeen world (repo_text repo.now) oid.now)) }
{
    if is_retired(store, repo, oid)? {
        return Ok(Some(Retired::Already));
    }
    match find(store, repo, oid)? {
        None => Ok(Some(Retired::Unknown)),
        Some(_) => Ok(None),
    }
}

/// Removes the object that the repository has under this name for good: its bytes are deleted, its size is subtracted
/// from the number of bytes that the repository stores, and the name may not be stored there again. What the repository
/// has staged is removed before. If there is no such object, nothing is changed.
///
/// # Errors
///
/// `Refused` or `Memory`. The objects of the store are unchanged, but a stop may still leave the removal.
pub fn retire<S: Store>(
    alloc: Global,
    store: &mut S,
    repo: &RepoName,
    oid: Oid,
) -> Result<Retired, StoreFault>
    ensures { From S.State store.old store.new (λ world.
        Retires S.State world (repo_text repo.now) oid store.old store.new result) }
{
    match nothing_to_remove(store, repo, &oid)? {
        Some(why) => Ok(why),
        None => remove(alloc, store, repo, oid),
    }
}
