//! What the policy says of a caller in a repository: permits, denials, and which locks the caller sees.

ghost use Rattle.std.specs.Prelude.{◌≡◌, IfOk, Err, option_map};
ghost use Rattle.names.specs.Names.{ref_text};
ghost use Rattle.model.specs.Answers.{hiding_status, may_push, permit};
ghost use Rattle.model.specs.Locks.{ref_or_default};
ghost use Rattle.model.specs.Policy.{decide};
ghost use Rattle.model.specs.Callers.{is_allowed, is_own, lock_question, pull_question, push_question, sees};
ghost use Rattle.model.specs.Views.{sees_objects};
ghost use Rattle.forms.specs.Replies.{IsAnswer, denial_status};
ghost use Rattle.policy.specs.Values.{policy_view, question_view};
ghost use Rattle.locks.specs.Finding.{lock_seen};
ghost use Rattle.desk.specs.Rights.{Judges, case_policy, case_repo, case_user, allow_on, denial_view, list_question};
ghost use Rattle.desk.specs.Askers.{asker_policy, asker_repo, asker_user, has_right, may_list_or_lock, AreRowsFor};
ghost use Rattle.desk.specs.Replies.{IsReplyOf};

use crate::cases::{Case, Denial};
use crate::replies::Reply;
use forms::{Answer, DenialStatus};
use locks::Lock;
use model::Right;
use names::{RefName, RepoName, UserName};
use policy::{ApplicableRows, Policy, Question, Verdict, decide};
use std::alloc::{AllocError, Global};

/// The ref that is named, or the repository's default.
pub(crate) fn ref_or_default<'a>(case: &Case<'a>, named: Option<&'a RefName>) -> &'a RefName
    ensures { ref_text result.now ≡ ref_or_default
        (option_map (λ name. ref_text name.now) named.entry) (case_repo case.entry.now) }
{
    match named {
        Some(name) => name,
        None => case.repo.default_ref(),
    }
}

/// The policy allows what the question asks, or its row denies it with this status.
pub(crate) fn permit(
    policy: &Policy,
    question: &Question<'_>,
    status: DenialStatus,
) -> Result<(), Denial>
    ensures { Judges (λ _. tt) result
        (permit (policy_view policy.now) (question_view question.now) (denial_status status)) }
{
    match decide(policy, question) {
        Verdict::Allow(_) => Ok(()),
        Verdict::Deny(row) => Err(Denial::Row {
            row,
            right: question.right,
            status,
        }),
    }
}

/// Whether the policy allows what the question asks.
fn is_allowed(policy: &Policy, question: &Question<'_>) -> bool
    ensures { result ≡ is_allowed (decide (policy_view policy.now) (question_view question.now)) }
{
    matches!(decide(policy, question), Verdict::Allow(_))
}

/// Who asks, and where.
#[derive(Clone, Copy, Debug)]
pub(crate) struct Asker<'a> {
    pub policy: &'a Policy,
    pub user: &'a UserName,
    pub repo: &'a RepoName,
}

/// The caller of the case, in its repository.
pub(crate) fn asker_of<'a>(case: &Case<'a>) -> Asker<'a>
    ensures policy { asker_policy result ≡ case_policy case.entry.now }
    ensures user { asker_user result ≡ case_user case.entry.now }
    ensures repo { asker_repo result ≡ (case_repo case.entry.now).name }
{
    Asker {
        policy: case.policy,
        user: case.user,
        repo: case.repo.name(),
    }
}

/// The question whether the user has the right on the ref and the path of the lock.
pub(crate) fn lock_question<'a>(asker: &Asker<'a>, right: Right, row: &'a Lock) -> Question<'a>
    ensures { question_view result ≡ lock_question right (asker_user asker.entry.now)
        (lock_seen (asker_repo asker.entry.now) row.now) }
{
    Question {
        user: asker.user,
        repo: asker.repo,
        right,
        ref_name: Some(&row.ref_name),
        path: Some(&row.path),
    }
}

/// The question whether the caller may download objects.
pub(crate) fn pull_question<'a>(case: &Case<'a>) -> Question<'a>
    ensures { question_view result
        ≡ pull_question (case_user case.entry.now) (case_repo case.entry.now).name }
{
    Question {
        user: case.user,
        repo: case.repo.name(),
        right: Right::Pull,
        ref_name: None,
        path: None,
    }
}

/// The question whether the caller may push to the ref.
pub(crate) fn push_question<'a>(case: &Case<'a>, ref_name: &'a RefName) -> Question<'a>
    ensures { question_view result
        ≡ push_question (case_user case.entry.now) (case_repo case.entry.now).name
        (ref_text ref_name.now) }
{
    Question {
        user: case.user,
        repo: case.repo.name(),
        right: Right::Push,
        ref_name: Some(ref_name),
        path: None,
    }
}

/// The status that hides the repository, unless the policy allows what the question asks.
fn hiding_status(policy: &Policy, question: &Question<'_>) -> DenialStatus
    ensures { denial_status result
        ≡ hiding_status (decide (policy_view policy.now) (question_view question.now)) }
{
    match decide(policy, question) {
        Verdict::Allow(_) => DenialStatus::Forbidden,
        Verdict::Deny(_) => DenialStatus::NotFound,
    }
}

/// The caller may push objects to the ref, or is denied.
pub(crate) fn may_push(case: &Case<'_>, ref_name: &RefName) -> Result<(), Denial>
    ensures { Judges (λ _. tt) result (may_push (case_policy case.entry.now)
        (case_user case.entry.now) (case_repo case.entry.now).name (ref_text ref_name.now)) }
{
    permit(
        case.policy,
        &push_question(case, ref_name),
        hiding_status(case.policy, &pull_question(case)),
    )
}

/// The rows of the policy that decide on which refs and paths the user has the right.
pub(crate) fn rows_for<'a>(
    alloc: Global,
    asker: &Asker<'a>,
    right: Right,
) -> Result<ApplicableRows<'a>, AllocError>
    ensures { IfOk result (λ rows. AreRowsFor asker.entry.now right rows) }
{
    let question = Question {
        user: asker.user,
        repo: asker.repo,
        right,
        ref_name: None,
        path: None,
    };
    ApplicableRows::new(alloc, asker.policy, question)
}

/// The rows of the policy that decide which locks the caller may list.
pub(crate) fn list_rows<'a>(
    alloc: Global,
    case: &Case<'a>,
) -> Result<ApplicableRows<'a>, AllocError>
    ensures policy { IfOk result (λ rows. policy_view rows.policy.now ≡ case_policy case.entry.now) }
    ensures question { IfOk result (λ rows. question_view rows.question ≡ list_question case.entry.now) }
{
    rows_for(alloc, &asker_of(case), Right::List)
}

/// Whether the policy allows what the rows were chosen for on the ref and the path of the lock.
pub(crate) fn allow_on(rows: &ApplicableRows<'_>, row: &Lock) -> bool
    ensures { result ≡ allow_on (policy_view rows.now.policy.now) (question_view rows.now.question) row.now }
{
    let verdict = rows.decide(Some(&row.ref_name), Some(&row.path));
    matches!(verdict, Verdict::Allow(_))
}

/// Whether the user has the right on the ref and the path of the lock.
fn has_right(asker: &Asker<'_>, right: Right, row: &Lock) -> bool
    ensures { result ≡ has_right asker.entry.now right
        (lock_seen (asker_repo asker.entry.now) row.now) }
{
    is_allowed(asker.policy, &lock_question(asker, right, row))
}

/// Whether the lock is the user's own.
pub(crate) fn is_own(asker: &Asker<'_>, row: &Lock) -> bool
    ensures { result
        ≡ is_own (asker_user asker.entry.now) (lock_seen (asker_repo asker.entry.now) row.now) }
{
    row.owner.as_str() == asker.user.as_str()
}

/// Whether the lock is the user's own, or the user may list or lock it.
fn may_list_or_lock(asker: &Asker<'_>, row: &Lock) -> bool
    ensures { result ≡ may_list_or_lock asker.entry.now
        (lock_seen (asker_repo asker.entry.now) row.now) }
{
    is_own(asker, row) || has_right(asker, Right::List, row) || has_right(asker, Right::Lock, row)
}

/// The question whether the user may push to the ref of the lock.
fn push_to<'a>(asker: &Asker<'a>, row: &'a Lock) -> Question<'a>
    ensures { question_view result ≡ push_question (asker_user asker.entry.now)
        (asker_repo asker.entry.now) (ref_text row.now.ref_name) }
{
    Question {
        user: asker.user,
        repo: asker.repo,
        right: Right::Push,
        ref_name: Some(&row.ref_name),
        path: None,
    }
}

/// Whether the user sees the lock: it is the user's own, or the user may list, lock or force it, or push to its ref.
pub(crate) fn sees(asker: &Asker<'_>, row: &Lock) -> bool
    ensures { result ≡ sees (asker_policy asker.entry.now) (asker_user asker.entry.now)
        (lock_seen (asker_repo asker.entry.now) row.now) }
{
    may_list_or_lock(asker, row)
        || has_right(asker, Right::Force, row)
        || is_allowed(asker.policy, &push_to(asker, row))
}

/// Whether the user sees the names and the sizes of the objects: the user may pull, or may push to some ref.
pub(crate) fn sees_objects(asker: &Asker<'_>) -> bool
    ensures { result ≡ sees_objects (asker_policy asker.entry.now) (asker_user asker.entry.now)
        (asker_repo asker.entry.now) }
{
    let pull = Question {
        user: asker.user,
        repo: asker.repo,
        right: Right::Pull,
        ref_name: None,
        path: None,
    };
    is_allowed(asker.policy, &pull) || asker.policy.may_allow_push(asker.user, asker.repo)
}

/// The answer to a request that is denied.
fn answer_to(denial: Denial) -> Answer<'static>
    ensures { IsAnswer result (Err (denial_view denial)) }
{
    match denial {
        Denial::Rule(rule) => Answer::Denied(rule),
        Denial::Row { row, right, status } => Answer::DeniedByRow { row, right, status },
    }
}

/// The reply to a request that is denied.
pub(crate) fn denial_reply(alloc: Global, denial: Denial) -> Result<Reply, AllocError>
    ensures { IfOk result (λ reply. IsReplyOf reply (Err (denial_view denial))) }
{
    Reply::telling(alloc, &answer_to(denial))
}
