//! The way of a request: identify the caller, admit the request, carry it out.

ghost use Rattle.std.specs.Prelude.{◌≡◌, ℕ, List, not, Err};
ghost use Rattle.model.specs.Answers.{by_rule};
ghost use Rattle.model.specs.Callers as model;
ghost use Rattle.model.specs.Verdict.{caller_plan, plan_for};
ghost use Rattle.policy.specs.Values.{policy_view};
ghost use Rattle.forms.specs.Requests.{request_asked};
ghost use Rattle.refinement.specs.Left.{From};
ghost use Rattle.tokens.specs.Callers.{IsHolder};
ghost use Rattle.desk.specs.Reading.{ReadsRepo, ShowsPlan, case_with};
ghost use Rattle.desk.specs.Replies.{ShowsIf};
ghost use Rattle.desk.specs.Done.{AnswersAll, AnswersEach, AnswersRequest, LeavesWorld, StaysWithin, verdict_by};
ghost use Rattle.desk.specs.Rights.{IsCallerOf, case_repo, case_seen};
ghost use Rattle.desk.specs.Asking.{is_upload_of, uploads, request_seen, setting_of};

use crate::admission::{RepoRequest, admit};
use crate::batching::batch;
use crate::cases::{Case, Denial};
use crate::checking::verify;
use crate::downloading::get;
use crate::listing::list;
use crate::locking::lock;
use crate::outcomes::{NotGranted, denied, reply_or_denial};
use crate::readers::RepoReader;
use crate::replies::Reply;
use crate::unlocking::unlock;
use crate::uploading::put;
use crate::verifying::verify_locks;
use forms::Request;
use names::{Body, BodyFault, Moment, Rule};
use policy::Policy;
use std::alloc::Global;
use store::Store;
use tables::StoreFault;
use tokens::{Caller, CallerFault};

/// Answers a request in a repository, and makes the change that the answer reports.
///
/// The reply reports the first rule that refuses: A1 to A3 for the token, A4 and R1 for the
/// repository, the J rule that comes with the request, A5, the policy's row, and then the conflict; or it reports
/// what was done. If the store refused or memory ran out, it is the store refusal: the locks, the objects and the tokens
/// of the store are then unchanged. The bytes of an upload are read from `content` once no rule refuses it; of any other
/// request `content` is not read.
///
/// A denied request leaves the tables as they were, unless X2 denies it, and so does the store refusal, unless the content
/// of an upload was begun. The views of other repositories do not change. A repository within its quota then has at most
/// its quota and one largest object in the database, also in what a stop leaves.
///
/// # Errors
///
/// The fault of `content`: the input ended or a read failed within the bytes of an upload. The locks, the objects and the
/// tokens of the store are then unchanged.
pub fn answer<S: Store, B: Body>(
    alloc: Global,
    store: &mut S,
    policy: &Policy,
    now: Moment,
    asked: &RepoRequest<'_>,
    content: &mut B,
) -> Result<Reply, BodyFault>
    ensures answered { AnswersAll S.State B.Body (is_upload_of asked.entry.now)
        (setting_of policy.entry.now now) (request_seen asked.entry.now)
        store.old store.new content.old content.new result }
    ensures world { From S.State store.old store.new
        (LeavesWorld S.State store.new (policy_view policy.entry.now) asked.entry.now.repo.now) }
    ensures bounded { From S.State store.old store.new
        (StaysWithin S.State store.old store.new (policy_view policy.entry.now)) }
{
    match tokens::caller(store, asked.authorization, now) {
        Ok(caller) => answer_caller(alloc, store, policy, now, &caller, asked, content),
        Err(CallerFault::Rule(rule)) => Ok(refusal(alloc, asked, rule)),
        Err(CallerFault::Store(_)) => Ok(Reply::store_refused()),
    }
}

/// The reply to a request that a rule refuses before its body.
fn refusal(alloc: Global, asked: &RepoRequest<'_>, rule: Rule) -> Reply
    ensures shows { ShowsIf (Err (by_rule rule)) result }
    ensures read { result.body_read ≡ not (is_upload_of asked.now) }
{
    denied(alloc, Denial::Rule(rule)).with_body_read(!asked.is_upload())
}

/// Answers the request of the caller.
///
/// # Errors
///
/// The errors of [`answer`].
fn answer_caller<S: Store, B: Body>(
    alloc: Global,
    store: &mut S,
    policy: &Policy,
    now: Moment,
    caller: &Caller<'_>,
    asked: &RepoRequest<'_>,
    content: &mut B,
) -> Result<Reply, BodyFault>
    ensures { AnswersRequest S.State B.Body (is_upload_of asked.entry.now) asked.entry.now.repo.now
        (IsHolder caller.entry.now) (λ world who size. caller_plan world
        (setting_of policy.entry.now now) who (request_seen asked.entry.now size))
        store.old store.new content.old content.new result }
{
    match admit(policy, &caller.repo, caller.operation, asked) {
        Ok((repo, request)) => {
            let case = Case {
                policy,
                now,
                repo,
                user: &caller.user,
                token: caller.token,
                expires: caller.expires,
            };
            answer_request(alloc, store, &case, request, content)
        }
        Err(rule) => Ok(refusal(alloc, asked, rule)),
    }
}

/// Answers an admitted request.
///
/// # Errors
///
/// The errors of [`answer`].
fn answer_request<S: Store, B: Body>(
    alloc: Global,
    store: &mut S,
    case: &Case<'_>,
    request: &Request,
    content: &mut B,
) -> Result<Reply, BodyFault>
    ensures { AnswersRequest S.State B.Body (uploads (request_asked request.entry.now))
        (case_repo case.entry.now).name (IsCallerOf case.entry.now) (λ world who size.
        plan_for (case_seen world case.entry.now who) size (request_asked request.entry.now))
        store.old store.new content.old content.new result }
{
    match request {
        Request::Put(asked) => put(store, alloc, case, asked, content),
        _ => {
            let done = answer_whole(alloc, store, case, request);
            Ok(reply_or_denial(alloc, done))
        }
    }
}

/// Answers an admitted request that uploads nothing.
///
/// # Errors
///
/// `Denied`, and `Store`, which is `Refused` for an upload. Both leave the tables unchanged.
fn answer_whole<S: Store>(
    alloc: Global,
    store: &mut S,
    case: &Case<'_>,
    request: &Request,
) -> Result<Reply, NotGranted>
    ensures { (size : ℕ) (content : List ℕ)
        → AnswersEach S.State (IsCallerOf case.entry.now) store.old store.new (λ world who.
        verdict_by world (case_repo case.entry.now).name (plan_for
        (case_seen world case.entry.now who) size (request_asked request.entry.now)) content)
        result }
{
    match request {
        Request::Lock(asked) => lock(store, alloc, case, asked),
        Request::Unlock(asked) => unlock(store, alloc, case, asked),
        Request::Put(_) => Err(StoreFault::Refused.into()),
        _ => answer_reading(alloc, store, case, request),
    }
}

/// Answers an admitted request that changes nothing, by what it reads.
///
/// # Errors
///
/// `Denied`, and `Store`, which is `Refused` for a request that may change something.
pub(crate) fn answer_reading<R: RepoReader>(
    alloc: Global,
    reader: &mut R,
    case: &Case<'_>,
    request: &Request,
) -> Result<Reply, NotGranted>
    ensures { ReadsRepo R.RepoReader reader.old reader.new (case_repo case.entry.now) (λ state.
        (who : model.Caller) → IsCallerOf case.entry.now who → (size : ℕ) → ShowsPlan result
        (plan_for (case_with case.entry.now who state) size (request_asked request.entry.now))) }
{
    match request {
        Request::Batch(asked) => batch(reader, alloc, case, asked),
        Request::Get(asked) => get(reader, case, asked),
        Request::Verify(asked) => verify(reader, case, asked),
        Request::List(asked) => list(reader, alloc, case, asked),
        Request::VerifyLocks(asked) => verify_locks(reader, alloc, case, asked),
        Request::Put(_) | Request::Lock(_) | Request::Unlock(_) => Err(StoreFault::Refused.into()),
    }
}
