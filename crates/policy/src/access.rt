//! What Git asks before it begins: whether a user may pull from a repository, or push something to it.

ghost use Rattle.std.specs.Prelude.{◌≡◌, None, option_map};
ghost use Rattle.std.specs.Option.{option_copied};
ghost use Rattle.std.specs.List.{find};
ghost use Rattle.names.specs.Names.{repo_text, user_text};
ghost use Rattle.policy.specs.Access.{AccessIsRight, is_allowing, may, settles};
ghost use Rattle.policy.specs.Values.{policy_view, question_view, row_view};

use crate::decisions::decide;
use crate::policies::Policy;
use crate::questions::{Question, Verdict};
use crate::rows::Row;
use model::{Effect, Right};
use names::{RepoName, UserName};

/// What Git asks for.
#[derive(Clone, Copy, Debug, PartialEq, Eq)]
pub enum Access {
    /// To clone or fetch: `git-upload-pack`.
    Pull,
    /// To push: `git-receive-pack`.
    Push,
}

/// The question for a right in the repository, without a ref and a path.
fn question_of<'a>(user: &'a UserName, repo: &'a RepoName, right: Right) -> Question<'a>
    ensures { question_view result ≡ record {
      user = user_text user.entry.now;
      repo = repo_text repo.entry.now;
      right = right;
      ref = None;
      path = None;
    } }
{
    Question {
        user,
        repo,
        right,
        ref_name: None,
        path: None,
    }
}

/// Whether the row allows what it matches.
fn is_allowing(row: Option<&Row>) -> bool
    ensures { result ≡ is_allowing (option_map (λ row. row_view row.now) row.entry) }
{
    match row {
        Some(row) => matches!(row.effect, Effect::Allow),
        None => false,
    }
}

impl Row {
    /// Whether the row applies to the question, and allows, or holds every ref and every path.
    fn settles(&self, question: &Question<'_>) -> bool
        ensures { result ≡ settles (question_view question.now) (row_view self.now) }
    {
        self.applies(question)
            && (matches!(self.effect, Effect::Allow) || self.covers_place(question))
    }
}

fn first_settling<'a>(rows: &'a [Row], question: &Question<'_>) -> Option<&'a Row>
    ensures { option_copied result
        ≡ find (λ row. settles (question_view question.now) (row_view row)) rows.entry.now }
{
    rows.iter().find(|row| row.settles(question))
}

impl Policy {
    /// The first row that settles the question.
    fn settling(&self, question: &Question<'_>) -> Option<&Row>
        ensures { option_map (λ row. row_view row.now) result
            ≡ find (settles (question_view question.now)) (policy_view self.now).rows }
    {
        first_settling(&self.rows, question)
    }

    /// Whether the policy lets the user pull from the repository, or may let him push something to it. A push may be
    /// allowed if, of the rows that hold the user, the repository and the right, one allows it for some ref, and no row
    /// before that one denies every push. So `false` says that each push is denied; `true` leaves it to the questions
    /// about each ref and path. The repository need not be one of the policy.
    pub fn may(&self, access: Access, user: &UserName, repo: &RepoName) -> bool
        ensures { result ≡ may access (policy_view self.now) (user_text user.now) (repo_text repo.now) }
    {
        match access {
            Access::Pull => {
                let question = question_of(user, repo, Right::Pull);
                matches!(decide(self, &question), Verdict::Allow(_))
            }
            Access::Push => {
                let question = question_of(user, repo, Right::Push);
                is_allowing(self.settling(&question))
            }
        }
    }
}

/// Whoever may push nothing is denied every push, and whoever may push something has a row that may allow it.
pub fn access_law()
    ensures { AccessIsRight }
{}
