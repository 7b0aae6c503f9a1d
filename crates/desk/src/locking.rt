//! The request for a lock (Git LFS API, File Locking, "Create Lock").

ghost use Rattle.std.specs.Prelude.{◌≡◌, ◌+◌, ◌<◌, IfOk, MatchOption};
ghost use Rattle.names.specs.Texts.{last_lock_id};
ghost use Rattle.model.specs.Locks.{lock_verdict};
ghost use Rattle.policy.specs.Values.{question_view};
ghost use Rattle.forms.specs.Requests.{lock_asked};
ghost use Rattle.forms.specs.ShownLocks.{lock_shown};
ghost use Rattle.refinement.specs.Left.{From};
ghost use Rattle.locks.specs.Creating.{placed_verdict};
ghost use Rattle.desk.specs.Locking.{ShowsRow, lock_part, IsReadyAfter, ReportsHeld, IsWantedBy, question_on};
ghost use Rattle.desk.specs.Done.{AnswersAlone, AnswersUser};

use crate::cases::Case;
use crate::outcomes::NotGranted;
use crate::replies::Reply;
use crate::rights::{permit, ref_or_default};
use forms::{Answer, DenialStatus, LockRequest, ShownLock};
use locks::{Lock, LockFault};
use model::Right;
use names::{LockId, Rule};
use policy::Question;
use std::alloc::{AllocError, Global};
use store::Store;
use tables::NewLock;

/// The part of a row that a client sees.
pub(crate) fn shown(row: &Lock) -> ShownLock<'_>
    ensures row { ShowsRow row.now result }
    ensures parts { lock_shown result ≡ lock_part row.now }
{
    ShownLock {
        id: row.id,
        locked_at: row.moment,
        owner: &row.owner,
        path: &row.path,
    }
}

/// The id after `made` others; `None` if no id is left.
fn next_id(made: u32) -> Option<LockId>
    ensures { MatchOption result (last_lock_id ≡ made)
        (λ id. (id ≡ made + 1) × (made < last_lock_id)) }
{
    LockId::from_number(made.checked_add(1)?)
}

/// The reply if the path is free: 201 with the next lock, or L5 if no id is left.
pub(crate) fn free_reply(
    alloc: Global,
    made: u32,
    wanted: &NewLock<'_>,
) -> Result<Reply, AllocError>
    ensures { IfOk result (IsReadyAfter made wanted.entry.now) }
{
    let Some(id) = next_id(made) else {
        return Reply::telling(alloc, &Answer::Denied(Rule::L5));
    };
    let lock = ShownLock {
        id,
        locked_at: wanted.moment,
        owner: wanted.owner,
        path: wanted.path,
    };
    Reply::telling(alloc, &Answer::Locked(&lock))
}

/// The reply for a path that is already locked: 409 with the lock that holds it.
pub(crate) fn held_reply(alloc: Global, row: &Lock) -> Result<Reply, AllocError>
    ensures { IfOk result (ReportsHeld row.now) }
{
    Reply::telling(alloc, &Answer::Held(&shown(row)))
}

/// Makes the lock if its path is free and an id is left for it, and returns the reply.
///
/// Renders the reply before creating the lock: running out of memory cannot leave an unreported lock.
///
/// # Errors
///
/// `Store`, which leaves the tables unchanged.
fn make_lock<S: Store>(
    store: &mut S,
    alloc: Global,
    wanted: &NewLock<'_>,
) -> Result<Reply, NotGranted>
    ensures { From S.State store.old store.new (λ world.
        AnswersAlone S.State store.old store.new world
        (placed_verdict world wanted.entry.now) result) }
{
    let made = locks::made(store, wanted.repo)?;
    let ready = free_reply(alloc, made, wanted)?;
    match locks::create(alloc, store, wanted) {
        Ok(_) => Ok(ready),
        Err(LockFault::Held(lock)) => Ok(held_reply(alloc, &lock)?),
        Err(LockFault::UsedUp) => Ok(ready),
        Err(LockFault::Store(fault)) => Err(fault.into()),
    }
}

/// The lock that the request asks for.
pub(crate) fn wanted_by<'a>(case: &Case<'a>, asked: &'a LockRequest) -> NewLock<'a>
    ensures { IsWantedBy case.entry.now asked.entry.now result }
{
    NewLock {
        repo: case.repo.name(),
        ref_name: ref_or_default(case, asked.ref_name.as_ref()),
        path: &asked.path,
        owner: case.user,
        moment: case.now,
    }
}

/// The question whether the caller may lock the path.
pub(crate) fn question_on<'a>(wanted: &NewLock<'a>) -> Question<'a>
    ensures { question_view result ≡ question_on wanted.entry.now }
{
    Question {
        user: wanted.owner,
        repo: wanted.repo,
        right: Right::Lock,
        ref_name: Some(wanted.ref_name),
        path: Some(wanted.path),
    }
}

/// Makes the lock that the request asks for, if the policy permits it, and returns the reply.
///
/// # Errors
///
/// `Denied` by the policy, and `Store`. Both leave the tables unchanged.
pub(crate) fn lock<S: Store>(
    store: &mut S,
    alloc: Global,
    case: &Case<'_>,
    asked: &LockRequest,
) -> Result<Reply, NotGranted>
    ensures { AnswersUser S.State case.entry.now store.old store.new
        (λ seen. lock_verdict seen (lock_asked asked.entry.now)) result }
{
    let wanted = wanted_by(case, asked);
    permit(case.policy, &question_on(&wanted), DenialStatus::Forbidden)?;
    make_lock(store, alloc, &wanted)
}
