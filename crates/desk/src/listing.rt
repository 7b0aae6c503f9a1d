//! The request for a list of locks (Git LFS API, File Locking, "List Locks").

ghost use Rattle.std.specs.Prelude.{◌≡◌, ℕ, List, IfOk, Ok};
ghost use Rattle.model.specs.Answers.{lists};
ghost use Rattle.model.specs.Locks.{list_verdict};
ghost use Rattle.forms.specs.Requests.{list_asked};
ghost use Rattle.cursor.specs.Paging.{cursor_or_first, page_seen};
ghost use Rattle.cursor.specs.Wanted.{form_of_filter};
ghost use Rattle.desk.specs.Replies.{IsReplyOf};
ghost use Rattle.desk.specs.Reading.{ShowsUser};
ghost use Rattle.desk.specs.Rights.{Judges};
ghost use Rattle.desk.specs.Paging.{filters_of, list_start};

use crate::cases::{Case, Denial};
use crate::outcomes::NotGranted;
use crate::pages::{shown_locks, start_at};
use crate::readers::RepoReader;
use crate::replies::Reply;
use crate::rights::{list_rows, permit, pull_question};
use cursor::{Filter, Page, read_limit};
use forms::{Answer, DenialStatus, ListRequest, ShownPage};
use names::LockId;
use std::alloc::{AllocError, Global};

/// The id at which the list begins, if the caller may pull.
fn list_start(case: &Case<'_>, asked: &ListRequest) -> Result<Option<LockId>, Denial>
    ensures { Judges cursor_or_first result (list_start case.entry.now (list_asked asked.now)) }
{
    permit(case.policy, &pull_question(case), DenialStatus::Forbidden)?;
    start_at(asked.cursor.as_ref())
}

/// The filters of the request.
fn filter_of(asked: &ListRequest) -> Filter<'_>
    ensures { form_of_filter result ≡ filters_of (list_asked asked.entry.now) }
{
    Filter {
        path: asked.path.as_ref(),
        id: asked.id,
        ref_name: asked.ref_name.as_ref(),
    }
}

/// The reply with the page.
fn page_reply(alloc: Global, page: &Page) -> Result<Reply, AllocError>
    ensures { IfOk result (λ reply. (repo : List ℕ)
        → IsReplyOf reply (Ok (lists (page_seen repo page.now)))) }
{
    let locks = shown_locks(alloc, page.locks.as_slice())?;
    let shown = ShownPage {
        locks: locks.as_slice(),
        next: page.next,
    };
    Reply::telling(alloc, &Answer::Listed(&shown))
}

/// Answers a request for a list of locks with a page.
///
/// # Errors
///
/// `Denied` by the policy or L4, and `Store`.
pub(crate) fn list<R: RepoReader>(
    reader: &mut R,
    alloc: Global,
    case: &Case<'_>,
    asked: &ListRequest,
) -> Result<Reply, NotGranted>
    ensures { ShowsUser R.RepoReader case.entry.now reader.old reader.new
        (λ seen. list_verdict seen (list_asked asked.entry.now)) result }
{
    let cursor = list_start(case, asked)?;
    let rows = list_rows(alloc, case)?;
    let found = reader.page(
        alloc,
        case.repo,
        &filter_of(asked),
        Some(&rows),
        cursor,
        read_limit(asked.limit),
    )?;
    Ok(page_reply(alloc, &found)?)
}
