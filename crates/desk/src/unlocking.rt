//! The request to release a lock (Git LFS API, File Locking, "Delete Lock").

ghost use Rattle.std.specs.Prelude.{◌≡◌, ℕ, List, IfOk, Ok, Some, option_map};
ghost use Rattle.names.specs.Names.{repo_text};
ghost use Rattle.model.specs.Answers.{releases};
ghost use Rattle.model.specs.Locks.{unlock_verdict};
ghost use Rattle.forms.specs.Requests.{unlock_asked};
ghost use Rattle.refinement.specs.Left.{From};
ghost use Rattle.locks.specs.Finding.{lock_seen, lock_with};
ghost use Rattle.desk.specs.Replies.{IsReplyOf};
ghost use Rattle.desk.specs.Done.{AnswersAlone, AnswersUser};
ghost use Rattle.desk.specs.Rights.{Judges, case_repo, case_user};
ghost use Rattle.desk.specs.Unlocking.{found_verdict, lock_verdict, right_to_release};

use crate::cases::{Case, Denial};
use crate::locking::shown;
use crate::outcomes::NotGranted;
use crate::replies::Reply;
use crate::rights::{asker_of, is_own, lock_question, permit, sees};
use forms::{Answer, DenialStatus, UnlockRequest};
use locks::Lock;
use model::Right;
use names::{RepoName, Rule};
use std::alloc::{AllocError, Global};
use store::Store;
use tables::StoreFault;

/// The right that releasing the lock asks of the caller: lock for one's own, and force for another's.
fn right_for(case: &Case<'_>, force: bool, row: &Lock) -> Result<Right, Denial>
    ensures { Judges (λ right. right) result (right_to_release (case_user case.entry.now) force
        (lock_seen (case_repo case.entry.now).name row.now)) }
{
    if is_own(&asker_of(case), row) {
        Ok(Right::Lock)
    } else if force {
        Ok(Right::Force)
    } else {
        Err(Denial::Rule(Rule::L3))
    }
}

/// Whether the caller may release the lock.
fn may_release(case: &Case<'_>, force: bool, row: &Lock) -> Result<(), Denial>
    ensures { Judges (λ _. releases (lock_seen (case_repo case.entry.now).name row.now)) result
        (lock_verdict case.entry.now force (lock_seen (case_repo case.entry.now).name row.now)) }
{
    let right = right_for(case, force, row)?;
    permit(
        case.policy,
        &lock_question(&asker_of(case), right, row),
        DenialStatus::Forbidden,
    )
}

/// The lock to release: the one that was found, if the caller sees it and may release it.
pub(crate) fn lock_to_release<'a>(
    case: &Case<'_>,
    force: bool,
    found: Option<&'a Lock>,
) -> Result<&'a Lock, Denial>
    ensures verdict { Judges
        (λ row. releases (lock_seen (case_repo case.entry.now).name row.now)) result
        (found_verdict case.entry.now force
        (option_map (λ row. lock_seen (case_repo case.entry.now).name row.now) found.entry)) }
    ensures same { IfOk result (λ row. found.entry ≡ Some row) }
{
    let Some(row) = found else {
        return Err(Denial::Rule(Rule::L2));
    };
    if !sees(&asker_of(case), row) {
        return Err(Denial::Rule(Rule::L2));
    }
    may_release(case, force, row)?;
    Ok(row)
}

/// The reply to a lock that was released.
pub(crate) fn released_reply(alloc: Global, row: &Lock) -> Result<Reply, AllocError>
    ensures { IfOk result (λ reply. (repo : List ℕ)
        → IsReplyOf reply (Ok (releases (lock_seen repo row.now)))) }
{
    Reply::telling(alloc, &Answer::Released(&shown(row)))
}

/// Releases the lock.
///
/// Renders the reply before removing the lock: running out of memory cannot leave an unreported release.
///
/// # Errors
///
/// `Store`, which leaves the tables unchanged.
fn release<S: Store>(
    store: &mut S,
    alloc: Global,
    repo: &RepoName,
    row: &Lock,
) -> Result<Reply, NotGranted>
    ensures { From S.State store.old store.new (λ world.
        lock_with (repo_text repo.now) row.now.id world
        ≡ Some (lock_seen (repo_text repo.now) row.now)
        → AnswersAlone S.State store.old store.new world
        (Ok (releases (lock_seen (repo_text repo.now) row.now))) result) }
{
    let reply = released_reply(alloc, row)?;
    if locks::remove(store, repo, row.id)? {
        Ok(reply)
    } else {
        Err(StoreFault::Refused.into())
    }
}

/// Answers a request to release a lock with the lock that was released.
///
/// # Errors
///
/// `Denied` by L2, L3 or the policy, and `Store`. Both leave the tables unchanged.
pub(crate) fn unlock<S: Store>(
    store: &mut S,
    alloc: Global,
    case: &Case<'_>,
    asked: &UnlockRequest,
) -> Result<Reply, NotGranted>
    ensures { AnswersUser S.State case.entry.now store.old store.new
        (λ seen. unlock_verdict seen (unlock_asked asked.entry.now)) result }
{
    let found = locks::get(store, case.repo.name(), asked.id)?;
    let row = lock_to_release(case, asked.force, found.as_ref())?;
    release(store, alloc, case.repo.name(), row)
}
