//! Checks the paths of a push.

ghost use Rattle.std.specs.Prelude.{◌≡◌, IfOk, map};
ghost use Rattle.names.specs.Names.{path_text};
ghost use Rattle.model.specs.PushChecks.{path_verdict, push_verdicts};
ghost use Rattle.policy.specs.Values.{policy_view};
ghost use Rattle.refinement.specs.Left.{Reads};
ghost use Rattle.pushcheck.specs.Verdicts.{push_by, push_view, verdict_view};

use crate::pushes::Push;
use crate::verdicts::{PushVerdict, verdict_by_lock};
use model::Right;
use names::{LockPath, RefName, RepoName, UserName};
use policy::{ApplicableRows, Policy, Question, Verdict};
use std::alloc::{AllocError, Global};
use store::Store;
use tables::StoreFault;

/// The push of the user to the ref.
fn push_by<'a>(
    alloc: Global,
    policy: &'a Policy,
    user: &'a UserName,
    repo: &'a RepoName,
    ref_name: &'a RefName,
) -> Result<Push<'a>, AllocError>
    ensures policy { IfOk result (λ push. push.rows.policy.now ≡ policy.entry.now) }
    ensures push { IfOk result (λ push. push_view push
        ≡ push_by user.entry.now repo.entry.now ref_name.entry.now) }
{
    let question = Question {
        user,
        repo,
        right: Right::Push,
        ref_name: Some(ref_name),
        path: None,
    };
    let rows = ApplicableRows::new(alloc, policy, question)?;
    Ok(Push {
        user,
        repo,
        ref_name,
        rows,
    })
}

/// The verdict on a path: that of the policy if it denies the push, else that of the lock on the path.
fn verdict_on<S: Store>(
    store: &mut S,
    push: &Push<'_>,
    path: &LockPath,
) -> Result<PushVerdict, StoreFault>
    ensures { Reads S.State store.old store.new (λ world. IfOk result (λ verdict.
        verdict_view verdict
        ≡ path_verdict (policy_view push.now.rows.policy.now) world (push_view push.now) (path_text path.now))) }
{
    match push.rows.decide(Some(push.ref_name), Some(path)) {
        Verdict::Deny(row) => Ok(PushVerdict::Denied(row)),
        Verdict::Allow(_) => {
            let found = locks::at(store, push.repo, push.ref_name, path)?;
            Ok(verdict_by_lock(push.user, found))
        }
    }
}

/// Returns a verdict for each path, in their order: whether the user may push it to the ref of the
/// repository. A denial by the policy is reported before a lock, and a user's own lock is not in the way.
///
/// # Errors
///
/// `Refused` or `Memory`. The contents of the store are unchanged in any case.
pub fn check<S: Store>(
    alloc: Global,
    store: &mut S,
    policy: &Policy,
    user: &UserName,
    repo: &RepoName,
    ref_name: &RefName,
    paths: &[LockPath],
) -> Result<Vec<PushVerdict>, StoreFault>
    ensures { Reads S.State store.old store.new (λ world. IfOk result (λ verdicts.
        map verdict_view verdicts.items ≡ push_verdicts (policy_view policy.now) world
        (push_by user.now repo.now ref_name.now) (map path_text paths.now))) }
{
    let push = push_by(alloc, policy, user, repo, ref_name)?;
    let mut verdicts = Vec::with_capacity(alloc, paths.len())?;
    for path in paths {
        let verdict = verdict_on(store, &push, path)?;
        verdicts.push(verdict).map_err(AllocError::from)?;
    }
    Ok(verdicts)
}
