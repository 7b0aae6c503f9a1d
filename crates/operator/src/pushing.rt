//! Checks the paths of a push.

ghost use Rattle.std.specs.Prelude.{◌≡◌, true, flat_map, zip, IfOk, OnOk, MatchResult};
ghost use Rattle.std.specs.Io.KnownBytes.{Appends};
ghost use Rattle.std.specs.List.{list_all};
ghost use Rattle.names.specs.Names.{path_text};
ghost use Rattle.refinement.specs.Left.{Reads};
ghost use Rattle.pushcheck.specs.Verdicts.{verdict_view};
ghost use Rattle.operator.specs.Escapes.{shown};
ghost use Rattle.operator.specs.Lines.{verdict_line};
ghost use Rattle.operator.specs.Listed.{line};
ghost use Rattle.operator.specs.Printed.{IfWritten, verdict_lines};
ghost use Rattle.operator.specs.Tasks.{IsPushFault, is_free, may_push_all};
ghost use Rattle.operator.specs.Texts.{text_of};

use crate::escapes::Destination;
use crate::faults::TaskFault;
use crate::lines::shown_verdict;
use crate::output::Lines;
use names::{LockPath, RefName, RepoName, Sink, UserName};
use policy::Policy;
use pushcheck::{PushVerdict, check};
use std::alloc::{AllocError, Global};
use store::Store;

/// A push that is checked.
#[derive(Debug, Drop)]
pub struct Push<'a> {
    /// The policy that has the rows.
    pub policy: &'a Policy,
    /// Who pushes.
    pub user: &'a UserName,
    /// The repository that is pushed to.
    pub repo: &'a RepoName,
    /// The ref that is pushed to.
    pub ref_name: &'a RefName,
    /// The paths that the push changes.
    pub paths: Vec<LockPath>,
}

/// Whether the path may be pushed.
fn is_ok(verdict: &PushVerdict) -> bool
    ensures { result ≡ is_free (verdict_view verdict.now) }
{
    match verdict {
        PushVerdict::Ok => true,
        PushVerdict::Denied(_) | PushVerdict::Locked(_, _) => false,
    }
}

/// Whether each path may be pushed.
fn are_ok(verdicts: &[PushVerdict]) -> bool
    ensures { result ≡ list_all (λ verdict. is_free (verdict_view verdict)) verdicts.now }
{
    verdicts.iter().all(|verdict| is_ok(verdict))
}

/// The line with the verdict on each path.
fn lines_of(
    alloc: Global,
    paths: &[LockPath],
    verdicts: &[PushVerdict],
    destination: Destination,
) -> Result<Lines, AllocError>
    ensures { IfOk result (λ lines. text_of lines ≡ flat_map
        (λ p. line (shown destination (verdict_line (path_text p.0) (verdict_view p.1))))
        (zip paths.now verdicts.now)) }
{
    let mut lines = Lines::new(alloc);
    for (path, verdict) in paths.iter().zip(verdicts) {
        lines.push(shown_verdict(alloc, path, verdict, destination)?.as_slice())?;
    }
    Ok(lines)
}

/// Prints a verdict on each path of the push, in the order of the paths.
///
/// # Errors
///
/// `Store` and `Memory`; `Output` if a line could not be written; and `Reported` if a path may not be pushed.
pub(crate) fn check_push<S: Store, K: Sink>(
    alloc: Global,
    store: &mut S,
    push: &Push<'_>,
    destination: Destination,
    output: &mut K,
) -> Result<(), TaskFault>
    ensures reads { Reads S.State store.old store.new (λ world. MatchResult result
        (λ _. may_push_all world push.now ≡ true) (IsPushFault world push.now)) }
    ensures printed { Reads S.State store.old store.new (λ world. IfWritten result
        (Appends (K.taken output.old) (K.taken output.new) (verdict_lines destination world push.now))) }
    ensures good { OnOk result (K.failed output.new ≡ K.failed output.old) }
{
    let (policy, user, repo, ref_name) = (push.policy, push.user, push.repo, push.ref_name);
    let paths = push.paths.as_slice();
    let verdicts = check(alloc, store, policy, user, repo, ref_name, paths)?;
    lines_of(alloc, paths, verdicts.as_slice(), destination)?.write(output)?;
    if are_ok(verdicts.as_slice()) {
        Ok(())
    } else {
        Err(TaskFault::Reported)
    }
}
