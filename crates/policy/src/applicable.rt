//! The rows that can decide the questions of one user for one right in one repository.

ghost use Rattle.std.specs.Prelude.{◌≡◌, IfOk, map, option_map, slice_get};
ghost use Rattle.std.specs.List.{list_any};
ghost use Rattle.names.specs.Names.{ref_text, repo_text, path_text, user_text};
ghost use Rattle.model.specs.Policy.{decide};
ghost use Rattle.model.specs.Views.{may_allow_push};
ghost use Rattle.policy.specs.Values.{policy_view, question_view, decision_view, row_view, numbered_view};
ghost use Rattle.policy.specs.Applicable.{applicable_rows, covers_place, question_on, ApplicableRowsDecide};
ghost use Rattle.policy.specs.Index.{decision_of};

use crate::decisions::decided;
use crate::numbered::NumberedRow;
use crate::path_index::IndexedRows;
use crate::patterns::{hold_if_named, patterns_of};
use crate::policies::Policy;
use crate::questions::{Question, Verdict};
use crate::rows::Row;
use names::{LockPath, RefName, RepoName, UserName};
use std::alloc::{AllocError, Global};

impl<'a> NumberedRow<'a> {
    fn new(alloc: Global, number: u32, row: &'a Row) -> Result<NumberedRow<'a>, AllocError>
        ensures { IfOk result (λ made. numbered_view made
            ≡ record { number = number; row = row_view row.entry.now }) }
    {
        let refs = patterns_of(alloc, &row.refs)?;
        let paths = patterns_of(alloc, &row.paths)?;
        Ok(NumberedRow {
            number,
            row,
            refs,
            paths,
        })
    }

    /// Whether the row holds the ref and the path.
    pub(crate) fn covers_place(&self, question: &Question) -> bool
        ensures { result ≡ covers_place (question_view question.now) (row_view self.now.row.now) }
    {
        hold_if_named(&self.refs, question.ref_text())
            && hold_if_named(&self.paths, question.path_text())
    }
}

/// The rows of a policy that hold the user, the repository and the right of a question. They decide this question on
/// each ref and path as the whole policy does.
///
/// Whoever asks about many paths chooses these rows once: each decision then compares their refs and paths alone, with
/// patterns that were read once.
#[derive(Debug, Drop)]
pub struct ApplicableRows<'a> {
    policy: &'a Policy,
    question: Question<'a>,
    indexed: IndexedRows<'a>,
    pub ghost are_those_of_the_policy: { map numbered_view indexed.rows.items
        ≡ applicable_rows (policy_view policy.now) (question_view question) },
}

/// The verdict of the row at the position, or a denial if there is no such row.
fn verdict_at(rows: &[NumberedRow<'_>], position: usize) -> Verdict
    ensures { decision_view result ≡ decision_of (slice_get (map numbered_view rows.now) position) }
{
    if position < rows.len() {
        let numbered = &rows[position];
        decided(numbered.row.effect, numbered.number)
    } else {
        Verdict::Deny(0)
    }
}

/// The rows that apply to the question, in the order of the file.
fn rows_for<'a>(
    alloc: Global,
    policy: &'a Policy,
    question: &Question<'_>,
) -> Result<Vec<NumberedRow<'a>>, AllocError>
    ensures { IfOk result (λ rows. map numbered_view rows.items
        ≡ applicable_rows (policy_view policy.entry.now) (question_view question.now)) }
{
    let mut rows = Vec::new(alloc);
    for (index, row) in policy.rows.iter().enumerate() {
        if row.applies(question) {
            let number = index as u32 + 1;
            rows.push(NumberedRow::new(alloc, number, row)?)?;
        }
    }
    Ok(rows)
}

/// Whether one of the rows may allow the user a push to some ref of the repository.
fn any_allows_push(rows: &[Row], user: &UserName, repo: &RepoName) -> bool
    ensures { result ≡ list_any (λ row.
        may_allow_push (user_text user.now) (repo_text repo.now) (row_view row)) rows.now }
{
    rows.iter().any(|row| row.may_allow_push(user, repo))
}

impl Policy {
    /// Whether some row may allow the user a push to some ref of the repository.
    pub fn may_allow_push(&self, user: &UserName, repo: &RepoName) -> bool
        ensures { result ≡ list_any (may_allow_push (user_text user.now) (repo_text repo.now))
            (policy_view self.now).rows }
    {
        any_allows_push(&self.rows, user, repo)
    }
}

impl<'a> ApplicableRows<'a> {
    /// The rows for the question. Its ref and its path are not read.
    ///
    /// # Errors
    ///
    /// Fails if memory ran out.
    pub fn new(
        alloc: Global,
        policy: &'a Policy,
        question: Question<'a>,
    ) -> Result<ApplicableRows<'a>, AllocError>
        ensures policy { IfOk result (λ rows. rows.policy.now ≡ policy.entry.now) }
        ensures question { IfOk result (λ rows. rows.question ≡ question.entry) }
    {
        let rows = rows_for(alloc, policy, &question)?;
        Ok(ApplicableRows {
            policy,
            question,
            indexed: IndexedRows::new(alloc, rows)?,
        })
    }

    /// The policy's verdict on the question about this ref and this path, as that of [`decide`](crate::decide). It needs no
    /// memory.
    pub fn decide(&self, ref_name: Option<&RefName>, path: Option<&LockPath>) -> Verdict
        ensures { decision_view result ≡ decide (policy_view self.now.policy.now)
            (question_on (question_view self.now.question)
            (option_map (λ name. ref_text name.now) ref_name.entry)
            (option_map (λ path. path_text path.now) path.entry)) }
    {
        let question = Question {
            ref_name,
            path,
            ..self.question
        };
        verdict_at(&self.indexed.rows, self.indexed.first(&question))
    }
}

/// The rows that apply to a question decide it as the policy does.
pub fn applicable_law()
    ensures { ApplicableRowsDecide }
{}
