//! Lists the locks of a repository.

ghost use Rattle.std.specs.Prelude.{◌≡◌, ℕ, List, map, IfErr, IfOk, OnOk};
ghost use Rattle.std.specs.Io.KnownBytes.{Appends};
ghost use Rattle.names.specs.Names.{repo_text};
ghost use Rattle.model.specs.RepoState.{locks_of};
ghost use Rattle.refinement.specs.Left.{Reads};
ghost use Rattle.locks.specs.Finding.{lock_seen};
ghost use Rattle.operator.specs.Failing.{IsPlain};
ghost use Rattle.operator.specs.Printed.{lock_lines};
ghost use Rattle.operator.specs.Texts.{text_of};

use crate::escapes::Destination;
use crate::faults::TaskFault;
use crate::lines::shown_lock;
use crate::output::Lines;
use locks::Lock;
use names::{RepoName, Sink};
use std::alloc::{AllocError, Global};
use store::Store;

/// A line for each lock.
fn lines_of(alloc: Global, rows: &[Lock], destination: Destination) -> Result<Lines, AllocError>
    ensures { IfOk result (λ lines. (repo : List ℕ)
        → text_of lines ≡ lock_lines destination (map (lock_seen repo) rows.now)) }
{
    let mut lines = Lines::new(alloc);
    for row in rows {
        lines.push(shown_lock(alloc, row, destination)?.as_slice())?;
    }
    Ok(lines)
}

/// Prints a line for each lock of the repository, in rising ids.
///
/// # Errors
///
/// `Store` and `Memory`, and `Output` if a line could not be written.
pub(crate) fn list_locks<S: Store, K: Sink>(
    alloc: Global,
    store: &mut S,
    repo: &RepoName,
    destination: Destination,
    output: &mut K,
) -> Result<(), TaskFault>
    ensures reads { Reads S.State store.old store.new (λ world. OnOk result
        (Appends (K.taken output.old) (K.taken output.new)
        (lock_lines destination (locks_of (repo_text repo.now) world)))) }
    ensures good { OnOk result (K.failed output.new ≡ K.failed output.old) }
    ensures err { IfErr result IsPlain }
{
    let rows = locks::all(alloc, store, repo)?;
    lines_of(alloc, rows.as_slice(), destination)?.write(output)
}
