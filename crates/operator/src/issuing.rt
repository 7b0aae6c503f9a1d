//! Issues a token for a user, as a Git LFS client asks for one over SSH.

ghost use Rattle.std.specs.Prelude.{◌≡◌, ℕ, List, IfOk, IfSome, OnOk, MatchResult, string_bytes};
ghost use Rattle.std.specs.Io.KnownBytes.{Appends};
ghost use Rattle.serde_json.specs.Written.{compact_text};
ghost use Rattle.names.specs.Names.{repo_text};
ghost use Rattle.model.specs.Replies.{action_data};
ghost use Rattle.policy.specs.Values.{policy_view};
ghost use Rattle.operator.specs.Failing.{Fails, IsIssueOf, IsTokenFault};
ghost use Rattle.operator.specs.Lines.{token_action};
ghost use Rattle.operator.specs.Paths.{HasRepo, IsRepoAt};
ghost use Rattle.operator.specs.Printed.{PrintsToken};
ghost use Rattle.refinement.specs.Left.{From};
ghost use Rattle.tokens.specs.Issuing.{Issues};

use crate::faults::TaskFault;
use crate::output::print;
use forms::Action;
use names::{RepoName, Sink};
use policy::Policy;
use std::alloc::{AllocError, Global};
use store::Store;
use tokens::{TokenRequest, issue, offer};

/// The policy's repository that a path names. The path may have the form of an address, with one slash
/// before the name and `.git` after it.
pub fn repo_at<'p>(policy: &'p Policy, path: &str) -> Option<&'p RepoName>
    ensures path { IfSome result (λ repo. IsRepoAt path.now (repo_text repo.now)) }
    ensures repo { IfSome result (λ repo. HasRepo (policy_view policy.now) (repo_text repo.now)) }
{
    match policy.repo(name_in(path)) {
        Some(repo) => Some(repo.name()),
        None => None,
    }
}

/// The name in a path, which may have a slash before it and `.git` after it.
fn name_in(path: &str) -> &str
    ensures { IsRepoAt path.now result.now }
{
    let path = path.strip_prefix('/').unwrap_or(path);
    path.strip_suffix(".git").unwrap_or(path)
}

/// The line for the client: the server's address for the repository, and the token (Git LFS API,
/// Server Discovery).
fn token_line(
    alloc: Global,
    policy: &Policy,
    repo: &RepoName,
    token: &str,
) -> Result<String, AllocError>
    ensures { IfOk result (λ text. string_bytes text ≡ compact_text (action_data
        (token_action (policy_view policy.now) (repo_text repo.now) token.now))) }
{
    let base = policy.base();
    let name = repo.as_str();
    let href = format!(in alloc; "{base}/{name}.git/info/lfs")?;
    let action = Action {
        href: href.as_str(),
        token,
        expires_in: policy.token_seconds(),
    };
    action.text(alloc)
}

/// Prints the token before storing it, so no stored token is one that nobody has seen.
///
/// # Errors
///
/// `Output` if the line could not be written; `Token`, `Store` and `Memory`. After each of them the
/// contents of the store are unchanged.
pub(crate) fn grant<S: Store, K: Sink>(
    alloc: Global,
    store: &mut S,
    policy: &Policy,
    asked: &TokenRequest<'_>,
    output: &mut K,
) -> Result<(), TaskFault>
    ensures world { From S.State store.old store.new (λ world. MatchResult result
        (λ _. (text : List ℕ) × Issues S.State world store.old store.new asked.entry.now text)
        (λ fault. Fails S.State (IsIssueOf asked.entry.now) ⊥ store.old store.new world
        × IsTokenFault world asked.entry.now fault)) }
    ensures printed { From S.State store.old store.new (λ world. OnOk result ((text : List ℕ)
        × PrintsToken world policy.now asked.entry.now text
        × Appends (K.taken output.old) (K.taken output.new) text)) }
    ensures good { OnOk result (K.failed output.new ≡ K.failed output.old) }
{
    let token = offer(alloc, store, asked)?;
    let mut line = token_line(alloc, policy, asked.repo, token.as_str())?;
    line.push('\n')?;
    print(output, line.as_bytes())?;
    issue(alloc, store, asked)?;
    Ok(())
}
