//! The request to upload an object (Git LFS API, Basic Transfers, "Uploads").

ghost use Rattle.std.specs.Prelude.{◌≡◌, pos, true, int_le, Ok, IfOk};
ghost use Rattle.model.specs.Callers as model;
ghost use Rattle.model.specs.Answers.{receives};
ghost use Rattle.model.specs.Objects.{put_verdict};
ghost use Rattle.policy.specs.Values.{repo_view};
ghost use Rattle.forms.specs.Requests.{put_asked};
ghost use Rattle.refinement.specs.Left.{Reads};
ghost use Rattle.desk.specs.Asking.{plan_seen};
ghost use Rattle.desk.specs.Done.{AnswersRequest};
ghost use Rattle.desk.specs.Objects.{Permits, has_place};
ghost use Rattle.desk.specs.Reading.{ReadsRepo, case_with};
ghost use Rattle.desk.specs.Receiving.{JudgesUpload, RepliesReceived};
ghost use Rattle.desk.specs.Rights.{IsUserOf, case_repo, case_seen};

use crate::admission::{RepoRequest, admit};
use crate::cases::{Case, Denial};
use crate::outcomes::{NotGranted, denied, refused_upload};
use crate::readers::RepoReader;
use crate::receiving::{Receipt, ReceiveFault, receive};
use crate::replies::Reply;
use crate::rights::{may_push, ref_or_default};
use forms::{PutRequest, Request};
use names::{Body, BodyFault, Moment, Oid, RepoName, Rule};
use policy::{Policy, Repo};
use std::alloc::Global;
use store::Store;
use tables::StoreFault;

/// Whether the quota holds an upload of this size, or an object of the name is stored.
fn has_place<R: RepoReader>(
    reader: &mut R,
    repo: &Repo,
    name: &Oid,
    size: u64,
) -> Result<bool, StoreFault>
    ensures { ReadsRepo R.RepoReader reader.old reader.new (repo_view repo.now)
        (λ state. IfOk result (λ place. place ≡ has_place size name.now state)) }
{
    let room = reader.room(repo)?;
    if fits(size, room) {
        return Ok(true);
    }
    let found = reader.size_of(repo, name)?;
    Ok(found.is_some())
}

/// Whether there is room for `size` bytes more.
pub(crate) fn fits(size: u64, room: i128) -> bool
    ensures { result ≡ int_le (pos size) room }
{
    i128::from(size) <= room
}

/// The caller may upload an object of this name and this size, before its bytes are read.
///
/// # Errors
///
/// `Denied` by the policy, X4 or X3, and `Store`. Both leave the contents of the store unchanged.
pub(crate) fn may_upload<R: RepoReader>(
    reader: &mut R,
    case: &Case<'_>,
    asked: &PutRequest,
    size: u64,
) -> Result<(), NotGranted>
    ensures { ReadsRepo R.RepoReader reader.old reader.new (case_repo case.entry.now) (λ state.
        (who : model.Caller) → IsUserOf case.entry.now who
        → Permits result (receives (put_asked asked.entry.now).name)
        (put_verdict (case_with case.entry.now who state) size (put_asked asked.entry.now))) }
{
    may_push(case, ref_or_default(case, asked.ref_name.as_ref()))?;
    if reader.is_gone(case.repo, &asked.name)? {
        return Err(Denial::Rule(Rule::X4).into());
    }
    if has_place(reader, case.repo, &asked.name, size)? {
        Ok(())
    } else {
        Err(Denial::Rule(Rule::X3).into())
    }
}

/// Judges a request to upload an object of this size, before its content is read, and returns the repository and the name.
///
/// # Errors
///
/// `Denied` for the first rule that refuses it, and `Store`, which is `Refused` for a request that uploads nothing. The
/// store is only read.
pub(crate) fn judge_upload<'a, S: Store>(
    store: &mut S,
    policy: &'a Policy,
    now: Moment,
    asked: &RepoRequest<'a>,
    size: u64,
) -> Result<(&'a RepoName, &'a Oid), NotGranted>
    ensures { Reads S.State store.old store.new (λ world. JudgesUpload asked.entry.now.repo.now
        (plan_seen world policy.entry.now now asked.entry.now size) result) }
{
    let caller = tokens::caller(store, asked.authorization, now)?;
    let (repo, request) = admit(policy, &caller.repo, caller.operation, asked)?;
    let Request::Put(put) = request else {
        return Err(StoreFault::Refused.into());
    };
    let case = Case {
        policy,
        now,
        repo,
        user: &caller.user,
        token: caller.token,
        expires: caller.expires,
    };
    may_upload(store, &case, put, size)?;
    Ok((repo.name(), &put.name))
}

/// The reply to an upload that was completed or not: 200, or X2.
pub(crate) fn receipt_reply(alloc: Global, receipt: Receipt) -> Reply
    ensures shows { RepliesReceived (Ok receipt) (Ok result) }
    ensures read { result.body_read ≡ true }
{
    match receipt {
        Receipt::Stored => Reply::confirmation(),
        Receipt::Differs => denied(alloc, Denial::Rule(Rule::X2)),
    }
}

/// The reply to an upload whose content was received: 200, or X2; the store refusal if the store refused or memory ran
/// out.
///
/// # Errors
///
/// The fault by which the content was cut off.
fn received_reply(
    alloc: Global,
    received: Result<Receipt, ReceiveFault>,
) -> Result<Reply, BodyFault>
    ensures shows { RepliesReceived received result }
    ensures read { IfOk result (λ reply. reply.body_read ≡ true) }
{
    match received {
        Ok(receipt) => Ok(receipt_reply(alloc, receipt)),
        Err(ReceiveFault::Store(_)) => Ok(Reply::store_refused()),
        Err(ReceiveFault::Body(fault)) => Err(fault),
    }
}

/// Answers a request to upload an object: before its bytes are read the policy's denial, X4 or X3; then 200, or X2.
///
/// # Errors
///
/// The fault by which the content was cut off. The objects of the store are unchanged.
pub(crate) fn put<S: Store, B: Body>(
    store: &mut S,
    alloc: Global,
    case: &Case<'_>,
    asked: &PutRequest,
    content: &mut B,
) -> Result<Reply, BodyFault>
    ensures { AnswersRequest S.State B.Body true (case_repo case.entry.now).name
        (IsUserOf case.entry.now) (λ world who size.
        put_verdict (case_seen world case.entry.now who) size (put_asked asked.entry.now))
        store.old store.new content.old content.new result }
{
    match may_upload(store, case, asked, content.left()) {
        Ok(()) => {
            let received = receive(alloc, store, case.repo.name(), &asked.name, content);
            received_reply(alloc, received)
        }
        Err(refused) => Ok(refused_upload(alloc, refused)),
    }
}
