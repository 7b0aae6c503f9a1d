//! Parses the arguments of the command `policy`.

ghost use Rattle.std.specs.Prelude.{◌≡◌};

use crate::args::{ref_of, repo_of, user_of, value_of};
use crate::faults::ArgsFault;
use clap::ArgMatches;
use model::Right;
use names::{LockPath, RefName, RepoName, UserName};
use policy::{Question, right_named};
use std::alloc::Global;

/// The arguments of `policy`.
#[derive(Debug, Drop)]
pub struct PolicyArgs<'a> {
    /// The policy file.
    pub policy: &'a str,
    /// What to print of it.
    pub task: PolicyTask,
}

/// What the command `policy` prints of a policy file.
#[derive(Debug, Drop)]
pub enum PolicyTask {
    /// How many repositories and rows it has.
    Count,
    /// Which row decides a question.
    Decide(AskedQuestion),
    /// Its rows.
    List,
}

/// A question to the policy that owns its parts.
#[derive(Debug, Drop)]
pub struct AskedQuestion {
    /// The user who asks.
    pub user: UserName,
    /// The repository.
    pub repo: RepoName,
    /// The right that is asked for.
    pub right: Right,
    /// The ref, if the question concerns one.
    pub ref_name: Option<RefName>,
    /// The path, if the question concerns one.
    pub path: Option<LockPath>,
}

impl AskedQuestion {
    ghost use Rattle.policy.specs.Values.{question_view};
    ghost use Rattle.command_line.specs.Asking.{asked_view};

    /// The question, as the policy takes it.
    pub fn question(&self) -> Question<'_>
        ensures { question_view result ≡ asked_view self.now }
    {
        Question {
            user: &self.user,
            repo: &self.repo,
            right: self.right,
            ref_name: self.ref_name.as_ref(),
            path: self.path.as_ref(),
        }
    }
}

/// The right given with `--right`.
fn right_of(matches: &ArgMatches<'_>) -> Result<Right, ArgsFault> {
    right_named(value_of(matches, "right")).ok_or(ArgsFault::Value("--right"))
}

/// The ref given with `--ref`; `None` if the option is absent.
fn asked_ref_of(alloc: Global, matches: &ArgMatches<'_>) -> Result<Option<RefName>, ArgsFault> {
    match matches.get_str("ref") {
        None => Ok(None),
        Some(_) => ref_of(alloc, matches).map(Some),
    }
}

/// The path given with `--path`; `None` if the option is absent.
fn asked_path_of(alloc: Global, matches: &ArgMatches<'_>) -> Result<Option<LockPath>, ArgsFault> {
    match matches.get_str("path") {
        None => Ok(None),
        Some(text) => {
            let path = LockPath::read(text.to_owned(alloc)?);
            path.map(Some).ok_or(ArgsFault::Value("--path"))
        }
    }
}

/// The question. `clap` has required its first three parts.
fn asked_of(alloc: Global, matches: &ArgMatches<'_>) -> Result<AskedQuestion, ArgsFault> {
    Ok(AskedQuestion {
        user: user_of(alloc, matches)?,
        repo: repo_of(alloc, matches)?,
        right: right_of(matches)?,
        ref_name: asked_ref_of(alloc, matches)?,
        path: asked_path_of(alloc, matches)?,
    })
}

fn task_of(alloc: Global, matches: &ArgMatches<'_>) -> Result<PolicyTask, ArgsFault> {
    if matches.get_flag("rows") {
        Ok(PolicyTask::List)
    } else if matches.contains_id("user") {
        Ok(PolicyTask::Decide(asked_of(alloc, matches)?))
    } else {
        Ok(PolicyTask::Count)
    }
}

/// Parses the arguments of `policy`.
///
/// # Errors
///
/// `Value` if a value is out of range, `Memory`.
pub(crate) fn policy_args<'a>(
    alloc: Global,
    matches: &ArgMatches<'a>,
) -> Result<PolicyArgs<'a>, ArgsFault> {
    Ok(PolicyArgs {
        policy: value_of(matches, "policy"),
        task: task_of(alloc, matches)?,
    })
}
