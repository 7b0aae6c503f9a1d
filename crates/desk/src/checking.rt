//! The request to verify an object that was uploaded (Git LFS API, Basic Transfers, "Verification").

ghost use Rattle.model.specs.Objects.{verify_verdict};
ghost use Rattle.forms.specs.Requests.{verify_asked};
ghost use Rattle.desk.specs.Reading.{ShowsUser};
ghost use Rattle.desk.specs.Objects.{size_check};
ghost use Rattle.desk.specs.Rights.{Judges};

use crate::cases::{Case, Denial};
use crate::outcomes::NotGranted;
use crate::readers::RepoReader;
use crate::replies::Reply;
use crate::rights::{may_push, ref_or_default};
use forms::VerifyRequest;
use names::{Rule, Size};

/// The object was found, and has this size; or V1 or V2.
fn check_size(found: Option<Size>, size: Size) -> Result<(), Denial>
    ensures { Judges (λ _. tt) result (size_check found size) }
{
    match found {
        Some(there) if there == size => Ok(()),
        Some(_) => Err(Denial::Rule(Rule::V2)),
        None => Err(Denial::Rule(Rule::V1)),
    }
}

/// Answers a request to verify an object.
///
/// # Errors
///
/// `Denied` by the policy, V1 or V2, and `Store`.
pub(crate) fn verify<R: RepoReader>(
    reader: &mut R,
    case: &Case<'_>,
    asked: &VerifyRequest,
) -> Result<Reply, NotGranted>
    ensures { ShowsUser R.RepoReader case.entry.now reader.old reader.new
        (λ seen. verify_verdict seen (verify_asked asked.entry.now)) result }
{
    may_push(case, ref_or_default(case, asked.ref_name.as_ref()))?;
    let found = reader.size_of(case.repo, &asked.name)?;
    check_size(found, asked.size)?;
    Ok(Reply::confirmation())
}
