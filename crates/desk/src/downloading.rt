//! The request for the content of an object (Git LFS API, Basic Transfers, "Downloads").

ghost use Rattle.model.specs.Callers as model;
ghost use Rattle.model.specs.Objects.{get_verdict};
ghost use Rattle.forms.specs.Requests.{get_asked};
ghost use Rattle.desk.specs.Reading.{ReadsRepo, ShowsPlan, case_with};
ghost use Rattle.desk.specs.Rights.{IsUserOf, case_repo};

use crate::cases::{Case, Denial};
use crate::outcomes::NotGranted;
use crate::readers::RepoReader;
use crate::replies::Reply;
use crate::rights::{permit, pull_question};
use forms::{DenialStatus, GetRequest};
use names::Rule;

/// Answers a request for the content of an object.
///
/// # Errors
///
/// `Denied` by the policy, X4 or X1, and `Store`.
pub(crate) fn get<R: RepoReader>(
    reader: &mut R,
    case: &Case<'_>,
    asked: &GetRequest,
) -> Result<Reply, NotGranted>
    ensures { ReadsRepo R.RepoReader reader.old reader.new (case_repo case.entry.now) (λ state.
        (who : model.Caller) → IsUserOf case.entry.now who
        → ShowsPlan result (get_verdict (case_with case.entry.now who state) (get_asked asked.entry.now))) }
{
    permit(case.policy, &pull_question(case), DenialStatus::NotFound)?;
    if reader.is_gone(case.repo, &asked.name)? {
        return Err(Denial::Rule(Rule::X4).into());
    }
    match reader.size_of(case.repo, &asked.name)? {
        Some(size) => Ok(Reply::content(asked.name, size)),
        None => Err(Denial::Rule(Rule::X1).into()),
    }
}
