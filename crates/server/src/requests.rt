//! What a command asks of a task.

ghost use Rattle.std.specs.Prelude.{◌≡◌, IfNone, IfOk, IfSome};
ghost use Rattle.names.specs.Names.{repo_text};
ghost use Rattle.tokens.specs.Issuing.{token_asked};
ghost use Rattle.server.specs.Commands.{IsAccessOf, IsPlainTask, IsPushOf, NeedsMore, token_for};

use command_line::{MayArgs, OperatorCommand, PushArgs, TokenArgs};
use faults::Fault;
use names::{Moment, RepoName};
use operator::{AccessQuestion, Push, Task, paths_in};
use policy::Policy;
use std::alloc::Global;
use std::io::Stderr;
use tokens::TokenRequest;

/// Returns the token that the arguments ask for, valid for this many seconds.
pub fn token_request<'a>(
    asked: &'a TokenArgs<'_>,
    repo: &'a RepoName,
    now: Moment,
    seconds: u64,
    random: &'a [u8; 32],
) -> TokenRequest<'a>
    ensures { token_asked result
        ≡ token_for asked.entry.now (repo_text repo.now) now seconds random.now }
{
    TokenRequest {
        user: &asked.user,
        repo,
        operation: asked.operation,
        now,
        seconds,
        random,
    }
}

/// Returns the task of a command that needs nothing else; `None` for a command that has a moment or an input, or is for the
/// server itself. A task over
/// all objects shows how far it is on the terminal, if there is one.
pub fn plain_task<'a>(
    command: &'a OperatorCommand<'_>,
    terminal: Option<&'a Stderr>,
) -> Option<Task<'a>>
    ensures some { IfSome result (IsPlainTask command.entry.now) }
    ensures none { IfNone result (NeedsMore command.entry.now) }
{
    match command {
        OperatorCommand::Locks(repo) => Some(Task::ListLocks(repo)),
        OperatorCommand::Objects(repo) => Some(Task::ListObjects(repo)),
        OperatorCommand::Check => Some(Task::CheckObjects(terminal)),
        OperatorCommand::Repair => Some(Task::Repair(terminal)),
        OperatorCommand::Sweep => Some(Task::Sweep),
        OperatorCommand::Retire(asked) => Some(Task::Retire(&asked.repo, &asked.oid)),
        _ => None,
    }
}

/// Returns what Git asks, by these arguments, of a repository of the policy.
///
/// # Errors
///
/// `Repository` if the policy does not have it.
pub fn access_question<'a>(
    policy: &'a Policy,
    asked: &'a MayArgs,
) -> Result<AccessQuestion<'a>, Fault>
    ensures { IfOk result (IsAccessOf policy.entry.now asked.entry.now) }
{
    match policy.repo(asked.repo.as_str()) {
        Some(_) => Ok(AccessQuestion {
            policy,
            user: &asked.user,
            repo: &asked.repo,
            access: asked.access,
        }),
        None => Err(Fault::Repository),
    }
}

/// Returns the push that the arguments and the lines of paths describe.
///
/// # Errors
///
/// `BadPath`, `TooManyPaths` and `Memory`.
pub fn push_of<'a>(
    alloc: Global,
    policy: &'a Policy,
    asked: &'a PushArgs,
    lines: &[u8],
) -> Result<Push<'a>, Fault>
    ensures { IfOk result (IsPushOf policy.entry.now asked.entry.now lines.now) }
{
    Ok(Push {
        policy,
        user: &asked.user,
        repo: &asked.repo,
        ref_name: &asked.ref_name,
        paths: paths_in(alloc, lines)?,
    })
}
