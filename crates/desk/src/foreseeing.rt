//! The reply that a user would get to a request, by what the user sees of the repository.

ghost use Rattle.std.specs.Prelude.{◌≡◌, ℕ, List, Err, IfOk, IfSome, MatchOption, bytes_eq, find, length, option_map};
ghost use Rattle.names.specs.Names.{path_text, ref_text, repo_text};
ghost use Rattle.model.specs.Callers as model;
ghost use Rattle.model.specs.Locks.{lock_verdict, unlock_verdict};
ghost use Rattle.model.specs.Objects.{put_verdict};
ghost use Rattle.model.specs.Verdict.{plan_for};
ghost use Rattle.model.specs.Views.{caller_in, no_caller, plan_reply};
ghost use Rattle.model.specs.World.{name_of};
ghost use Rattle.tokens.specs.Bearers.{single_value};
ghost use Rattle.forms.specs.Requests.{lock_asked, put_asked, request_asked, unlock_asked};
ghost use Rattle.desk.specs.declared.foreseeing.ForeseeFault.TheVariants as fault;
ghost use Rattle.desk.specs.Foreseeing.{IsCallerIn, IsForeseen, ShowsReply, is_on, is_seen};
ghost use Rattle.desk.specs.Reading.{ShowsVerdict, case_with};
ghost use Rattle.desk.specs.Replies.{IsReply};
ghost use Rattle.desk.specs.Rights.{IsCallerOf, IsUserOf, case_repo};
ghost use Rattle.desk.specs.Views.{own_seen, state_seen, view_seen};

use crate::admission::{RepoRequest, admit};
use crate::answering::answer_reading;
use crate::cases::{Case, Denial};
use crate::locking::{free_reply, held_reply, question_on, wanted_by};
use crate::outcomes::NotGranted;
use crate::replies::Reply;
use crate::rights::{Asker, asker_of, denial_reply, permit, sees};
use crate::unlocking::{lock_to_release, released_reply};
use crate::uploading::may_upload;
use crate::view_reader::ViewReader;
use crate::views::{OwnToken, View};
use forms::{DenialStatus, LockRequest, PutRequest, Request, UnlockRequest};
use locks::Lock;
use names::{LockId, LockPath, Moment, Oid, RefName, Rule};
use sha2::{Digest, Sha256};
use std::alloc::{AllocError, Global};
use tables::StoreFault;
use thiserror::Error;

/// Why no reply is foreseen.
#[derive(Clone, Copy, Debug, PartialEq, Eq, Error)]
pub enum ForeseeFault {
    /// The request has no token, or none of the view that is valid at the moment.
    #[error("no caller")]
    NoCaller,
    /// Memory ran out.
    #[error("memory ran out")]
    Memory,
}

impl From<AllocError> for ForeseeFault {
    ghost from_gives = { λ _ result. result ≡ fault.Memory };

    fn from(_error: AllocError) -> ForeseeFault {
        ForeseeFault::Memory
    }
}

fn with_digest<'a>(tokens: &'a [OwnToken], digest: &[u8; 32]) -> Option<&'a OwnToken>
    ensures { option_map (λ t. t.now) result
        ≡ find (λ t. bytes_eq t.digest digest.now) tokens.now }
{
    tokens.iter().find(|token| token.digest == *digest)
}

/// The text of the token that is presented, and the token, if it is a valid one of the view.
fn caller_in<'a>(
    view: &'a View<'_>,
    now: Moment,
    authorization: Option<&'a [u8]>,
) -> Option<(&'a str, OwnToken)>
    ensures { MatchOption result (caller_in (view_seen view.entry.now) now
        (single_value (option_map (λ v. v.now) authorization.entry)) ≡ Err no_caller)
        (λ found. IsCallerIn (view_seen view.entry.now) now
        (single_value (option_map (λ v. v.now) authorization.entry)) found.0.now (own_seen found.1)) }
{
    let Some(text) = tokens::bearer(authorization) else {
        return None;
    };
    let Some(token) = with_digest(view.tokens.as_slice(), &tokens::digest_of(text)) else {
        return None;
    };
    if now.get() < token.expires.get() {
        Some((text, *token))
    } else {
        None
    }
}

/// The name of these bytes.
fn name_of(bytes: &[u8]) -> Option<Oid>
    ensures { IfSome result (λ name. name ≡ name_of bytes.now) }
{
    let mut digits = [0; 64];
    hex::encode_to_slice(Sha256::digest(bytes), &mut digits).ok()?;
    Oid::read(&digits)
}

/// The reply to an upload with this content.
fn foresee_put(
    reader: &mut ViewReader<'_>,
    case: &Case<'_>,
    asked: &PutRequest,
    body: &[u8],
) -> Result<Reply, NotGranted>
    ensures { repo_text reader.old.view.now.repo.now ≡ (case_repo case.entry.now).name
        → (who : model.Caller) → IsUserOf case.entry.now who → (repo : List ℕ)
        → ShowsReply result (plan_reply repo body.now (put_verdict (case_with case.entry.now who
        (state_seen reader.old.view.now)) (length body.now) (put_asked asked.entry.now))) }
{
    may_upload(reader, case, asked, body.len() as u64)?;
    let Some(name) = name_of(body) else {
        return Err(StoreFault::Memory.into());
    };
    if name == asked.name {
        Ok(Reply::confirmation())
    } else {
        Err(Denial::Rule(Rule::X2).into())
    }
}

fn is_on(row: &Lock, ref_name: &RefName, path: &LockPath) -> bool
    ensures { result ≡ is_on (ref_text ref_name.now) (path_text path.now) row.now }
{
    row.ref_name.as_str() == ref_name.as_str() && row.path.as_str() == path.as_str()
}

/// The lock on the path of the ref.
fn lock_on<'a>(locks: &'a [Lock], ref_name: &RefName, path: &LockPath) -> Option<&'a Lock>
    ensures { option_map (λ row. row.now) result
        ≡ find (is_on (ref_text ref_name.now) (path_text path.now)) locks.now }
{
    locks.iter().find(|row| is_on(row, ref_name, path))
}

/// The reply to a request for a lock.
fn foresee_lock(
    alloc: Global,
    view: &View<'_>,
    case: &Case<'_>,
    asked: &LockRequest,
) -> Result<Reply, NotGranted>
    ensures { repo_text view.now.repo.now ≡ (case_repo case.entry.now).name → (who : model.Caller)
        → IsUserOf case.entry.now who → ShowsVerdict result (lock_verdict
        (case_with case.entry.now who (state_seen view.now)) (lock_asked asked.entry.now)) }
{
    let wanted = wanted_by(case, asked);
    permit(case.policy, &question_on(&wanted), DenialStatus::Forbidden)?;
    match lock_on(view.locks.as_slice(), wanted.ref_name, wanted.path) {
        Some(row) => Ok(held_reply(alloc, row)?),
        None => Ok(free_reply(alloc, view.made, &wanted)?),
    }
}

fn is_seen(row: &Lock, asker: &Asker<'_>, id: LockId) -> bool
    ensures { result ≡ is_seen asker.entry.now id row.now }
{
    row.id.get() == id.get() && sees(asker, row)
}

/// The lock of this id, if the user sees it.
fn visible_lock<'a>(locks: &'a [Lock], asker: &Asker<'_>, id: LockId) -> Option<&'a Lock>
    ensures { option_map (λ row. row.now) result ≡ find (is_seen asker.entry.now id) locks.now }
{
    locks.iter().find(|row| is_seen(row, asker, id))
}

/// The reply to a request to release a lock.
fn foresee_unlock(
    alloc: Global,
    view: &View<'_>,
    case: &Case<'_>,
    asked: &UnlockRequest,
) -> Result<Reply, NotGranted>
    ensures { repo_text view.now.repo.now ≡ (case_repo case.entry.now).name → (who : model.Caller)
        → IsUserOf case.entry.now who → ShowsVerdict result (unlock_verdict
        (case_with case.entry.now who (state_seen view.now)) (unlock_asked asked.entry.now)) }
{
    let found = visible_lock(view.locks.as_slice(), &asker_of(case), asked.id);
    let row = lock_to_release(case, asked.force, found)?;
    Ok(released_reply(alloc, row)?)
}

/// The reply to an admitted request.
fn foresee_for(
    alloc: Global,
    view: &View<'_>,
    case: &Case<'_>,
    request: &Request,
    body: &[u8],
) -> Result<Reply, NotGranted>
    ensures { repo_text view.now.repo.now ≡ (case_repo case.entry.now).name → (who : model.Caller)
        → IsCallerOf case.entry.now who → (repo : List ℕ) → ShowsReply result (plan_reply repo body.now (plan_for
        (case_with case.entry.now who (state_seen view.now)) (length body.now) (request_asked request.entry.now))) }
{
    let mut reader = ViewReader { view };
    match request {
        Request::Put(asked) => foresee_put(&mut reader, case, asked, body),
        Request::Lock(asked) => foresee_lock(alloc, view, case, asked),
        Request::Unlock(asked) => foresee_unlock(alloc, view, case, asked),
        _ => answer_reading(alloc, &mut reader, case, request),
    }
}

/// The reply, or that to the denial.
fn reply_to(alloc: Global, done: Result<Reply, NotGranted>) -> Result<Reply, AllocError>
    ensures { IfOk result (λ reply. (is : _) → ShowsReply done is → IsReply reply is) }
{
    match done {
        Ok(reply) => Ok(reply),
        Err(NotGranted::Denied(denial)) => denial_reply(alloc, denial),
        Err(NotGranted::Store(_)) => Err(AllocError),
    }
}

/// Returns the reply that the user of the view would get to the request with this body, unless the store refuses: in any
/// world in which the user has this view, at this moment. That to a request in another repository is A4, and that to one
/// which a J rule refuses is R1 or that rule. The body of an upload is hashed. Nothing is read but the view.
///
/// # Errors
///
/// `NoCaller` exactly if the request presents no valid token of the view; `Memory`.
pub fn foresee(
    alloc: Global,
    view: &View<'_>,
    now: Moment,
    asked: &RepoRequest<'_>,
    body: &[u8],
) -> Result<Reply, ForeseeFault>
    ensures { IsForeseen (view_seen view.entry.now) now asked.entry.now body.now result }
{
    let Some((text, token)) = caller_in(view, now, asked.authorization) else {
        return Err(ForeseeFault::NoCaller);
    };
    match admit(view.policy, view.repo, token.operation, asked) {
        Ok((repo, request)) => {
            let case = Case {
                policy: view.policy,
                now,
                repo,
                user: view.user,
                token: text,
                expires: token.expires,
            };
            let done = foresee_for(alloc, view, &case, request, body);
            Ok(reply_to(alloc, done)?)
        }
        Err(rule) => Ok(denial_reply(alloc, Denial::Rule(rule))?),
    }
}
