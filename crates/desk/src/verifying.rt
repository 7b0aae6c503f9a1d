//! The request for the locks of a ref, the caller's own apart (Git LFS API, File Locking, "List Locks
//! for Verification").

ghost use Rattle.std.specs.Prelude.{◌≡◌, ℕ, List, IfOk, Ok};
ghost use Rattle.names.specs.Names.{ref_text, user_text};
ghost use Rattle.model.specs.Answers.{splits};
ghost use Rattle.model.specs.Locks.{verify_locks_verdict};
ghost use Rattle.forms.specs.Requests.{verify_locks_asked};
ghost use Rattle.cursor.specs.Paging.{cursor_or_first, page_seen};
ghost use Rattle.cursor.specs.Wanted.{form_of_filter};
ghost use Rattle.desk.specs.Replies.{IsReplyOf};
ghost use Rattle.desk.specs.Reading.{ShowsUser};
ghost use Rattle.desk.specs.Rights.{Judges};
ghost use Rattle.desk.specs.Paging.{filter_by_ref, verify_start};

use crate::cases::{Case, Denial};
use crate::outcomes::NotGranted;
use crate::pages::{shown_locks, start_at};
use crate::readers::RepoReader;
use crate::replies::Reply;
use crate::rights::{permit, push_question, ref_or_default};
use cursor::{Filter, Page, read_limit, split};
use forms::{Answer, DenialStatus, SplitPage, VerifyLocksRequest};
use names::{LockId, RefName, UserName};
use std::alloc::{AllocError, Global};

/// The id at which the page begins, if the caller may push to the ref.
fn verify_start(
    case: &Case<'_>,
    ref_name: &RefName,
    asked: &VerifyLocksRequest,
) -> Result<Option<LockId>, Denial>
    ensures { Judges cursor_or_first result
        (verify_start case.entry.now (ref_text ref_name.now) (verify_locks_asked asked.now)) }
{
    permit(
        case.policy,
        &push_question(case, ref_name),
        DenialStatus::Forbidden,
    )?;
    start_at(asked.cursor.as_ref())
}

/// The filter for the locks of the ref.
fn of_ref(ref_name: &RefName) -> Filter<'_>
    ensures { form_of_filter result ≡ filter_by_ref (ref_text ref_name.entry.now) }
{
    Filter {
        path: None,
        id: None,
        ref_name: Some(ref_name),
    }
}

/// The reply with the page, the user's own locks apart.
fn split_reply(alloc: Global, page: &mut Page, user: &UserName) -> Result<Reply, AllocError>
    ensures { IfOk result (λ reply. (repo : List ℕ)
        → IsReplyOf reply (Ok (splits (user_text user.now) (page_seen repo page.old)))) }
{
    let next = page.next;
    let (ours, theirs) = split(page, user);
    let ours = shown_locks(alloc, ours)?;
    let theirs = shown_locks(alloc, theirs)?;
    let shown = SplitPage {
        ours: ours.as_slice(),
        theirs: theirs.as_slice(),
        next,
    };
    Reply::telling(alloc, &Answer::Split(&shown))
}

/// Answers a request for the locks of a ref with a page.
///
/// # Errors
///
/// `Denied` by the policy or L4, and `Store`.
pub(crate) fn verify_locks<R: RepoReader>(
    reader: &mut R,
    alloc: Global,
    case: &Case<'_>,
    asked: &VerifyLocksRequest,
) -> Result<Reply, NotGranted>
    ensures { ShowsUser R.RepoReader case.entry.now reader.old reader.new
        (λ seen. verify_locks_verdict seen (verify_locks_asked asked.entry.now)) result }
{
    let ref_name = ref_or_default(case, asked.ref_name.as_ref());
    let cursor = verify_start(case, ref_name, asked)?;
    let mut found = reader.page(
        alloc,
        case.repo,
        &of_ref(ref_name),
        None,
        cursor,
        read_limit(asked.limit),
    )?;
    Ok(split_reply(alloc, &mut found, case.user)?)
}
