//! The rows of repositories, locks, tokens and retired names.

ghost use Rattle.moving.specs.Moving.{IsOnlyRead};

use std::alloc::Global;
use store::{Listed, Restored};
use tables::{NewLock, NewToken, RepoLock, StoreFault};

/// Copies the rows of repositories that the new database does not have yet.
fn copy_repos<A: Listed, B: Listed + Restored>(
    alloc: Global,
    old: &mut A,
    new: &mut B,
) -> Result<(), StoreFault>
    ensures { IsOnlyRead A.State old.old old.new }
{
    let have = new.all_repos(alloc)?.len();
    for repo in old.all_repos(alloc)?.iter().skip(have) {
        new.restore_repo(&repo.name, repo.made, repo.used)?;
    }
    Ok(())
}

/// Adds a lock as the old database has it.
fn restore_lock(new: &mut impl Restored, row: RepoLock) -> Result<(), StoreFault> {
    let lock = NewLock {
        repo: &row.repo,
        ref_name: &row.lock.ref_name,
        path: &row.lock.path,
        owner: &row.lock.owner,
        moment: row.lock.moment,
    };
    new.restore_lock(&lock, row.lock.id)
}

/// Copies the locks that the new database does not have yet.
fn copy_locks<A: Listed, B: Listed + Restored>(
    alloc: Global,
    old: &mut A,
    new: &mut B,
) -> Result<(), StoreFault>
    ensures { IsOnlyRead A.State old.old old.new }
{
    let have = new.all_locks(alloc)?.len();
    for row in old.all_locks(alloc)?.into_iter().skip(have) {
        restore_lock(new, row)?;
    }
    Ok(())
}

/// Copies the tokens that the new database does not have yet.
fn copy_tokens<A: Listed, B: Listed + Restored>(
    alloc: Global,
    old: &mut A,
    new: &mut B,
) -> Result<(), StoreFault>
    ensures { IsOnlyRead A.State old.old old.new }
{
    let have = new.all_tokens(alloc)?.len();
    for row in old.all_tokens(alloc)?.iter().skip(have) {
        new.add_token(&NewToken {
            digest: &row.digest,
            user: &row.user,
            repo: &row.repo,
            operation: row.operation,
            expires: row.expires,
        })?;
    }
    Ok(())
}

/// Copies the retired names that the new database does not have yet.
fn copy_retired<A: Listed, B: Listed + Restored>(
    alloc: Global,
    old: &mut A,
    new: &mut B,
) -> Result<(), StoreFault>
    ensures { IsOnlyRead A.State old.old old.new }
{
    let have = new.all_retired(alloc)?.len();
    for row in old.all_retired(alloc)?.iter().skip(have) {
        new.restore_retired(&row.repo, &row.oid)?;
    }
    Ok(())
}

/// Copies the rows of repositories, locks, tokens and retired names that the new database does not have yet, in the
/// order in which the old one has them.
///
/// # Errors
///
/// `Refused` or `Memory`. What was copied stays. The old database is unchanged in any case.
pub fn copy_rows<A: Listed, B: Listed + Restored>(
    alloc: Global,
    old: &mut A,
    new: &mut B,
) -> Result<(), StoreFault>
    ensures { IsOnlyRead A.State old.old old.new }
{
    copy_repos(alloc, old, new)?;
    copy_locks(alloc, old, new)?;
    copy_tokens(alloc, old, new)?;
    copy_retired(alloc, old, new)
}
