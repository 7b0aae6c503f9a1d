//! Which requests are admitted: by a token for the repository, in a repository that exists.

ghost use Rattle.std.specs.Prelude.{◌≡◌};
ghost use Rattle.names.specs.Names.{repo_text};
ghost use Rattle.model.specs.Forms.{needs_upload, is_upload};
ghost use Rattle.policy.specs.Values.{policy_view};
ghost use Rattle.forms.specs.Given.{Gives};
ghost use Rattle.forms.specs.Requests.{request_asked};
ghost use Rattle.desk.specs.Asking.{request_read, is_upload_of};
ghost use Rattle.desk.specs.Admission.{admission_result, admission_view};

use forms::Request;
use names::{Operation, RepoName, Rule};
use policy::{Policy, Repo};

/// A request in a repository. The content of an upload is not part of it.
#[derive(Clone, Copy, Debug)]
pub struct RepoRequest<'a> {
    /// The value of `Authorization`, if there is one.
    pub authorization: Option<&'a [u8]>,
    /// The repository's text, as `owner/name`. It may not be a valid name.
    pub repo: &'a str,
    /// What is asked, or the rule that refuses it (J1 to J4).
    pub request: &'a Result<Request, Rule>,
}

impl RepoRequest<'_> {
    /// Whether the request uploads an object.
    pub(crate) fn is_upload(&self) -> bool
        ensures { result ≡ is_upload_of self.now }
    {
        matches!(self.request, Ok(Request::Put(_)))
    }
}

fn needs_upload(request: &Request) -> bool
    ensures { result ≡ needs_upload (request_asked request.now) }
{
    match request {
        Request::Batch(asked) => is_for_upload(asked.operation),
        Request::Get(_) | Request::List(_) => false,
        Request::Put(_) | Request::Verify(_) => true,
        Request::Lock(_) | Request::VerifyLocks(_) | Request::Unlock(_) => true,
    }
}

fn is_for_upload(operation: Operation) -> bool
    ensures { result ≡ is_upload operation }
{
    match operation {
        Operation::Download => false,
        Operation::Upload => true,
    }
}

/// Returns the repository and the request, or the first rule that refuses it: A4, R1, the J rules, A5. The token is for the
/// repository `own` and this operation.
pub(crate) fn admit<'a>(
    policy: &'a Policy,
    own: &RepoName,
    operation: Operation,
    asked: &RepoRequest<'a>,
) -> Result<(&'a Repo, &'a Request), Rule>
    ensures { Gives admission_view result (admission_result
        (policy_view policy.entry.now) (repo_text own.entry.now) (is_upload operation)
        asked.entry.now.repo.now (request_read asked.entry.now)) }
{
    if own.as_str() != asked.repo {
        return Err(Rule::A4);
    }
    let Some(repo) = policy.repo(asked.repo) else {
        return Err(Rule::R1);
    };
    let request = match asked.request {
        Ok(request) => request,
        Err(rule) => return Err(*rule),
    };
    if needs_upload(request) && !is_for_upload(operation) {
        return Err(Rule::A5);
    }
    Ok((repo, request))
}
