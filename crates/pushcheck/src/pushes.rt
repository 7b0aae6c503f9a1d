//! A push.

ghost use Rattle.std.specs.Prelude.{◌≡◌};
ghost use Rattle.names.specs.Names.{ref_text, repo_text, user_text};
ghost use Rattle.model.specs.Callers.{push_question};
ghost use Rattle.policy.specs.Values.{question_view};

use names::{RefName, RepoName, UserName};
use policy::ApplicableRows;

/// Who pushes, and to which ref of which repository.
#[derive(Drop)]
pub(crate) struct Push<'a> {
    pub user: &'a UserName,
    pub repo: &'a RepoName,
    pub ref_name: &'a RefName,
    /// The rows of the policy that decide on its paths.
    pub rows: ApplicableRows<'a>,
    pub ghost rows_are_for_the_push: { question_view rows.question
        ≡ push_question (user_text user.now) (repo_text repo.now) (ref_text ref_name.now) },
}
