//! Lists the objects of a repository.

ghost use Rattle.std.specs.Prelude.{◌≡◌, flat_map, IfErr, IfOk, OnOk};
ghost use Rattle.std.specs.Io.KnownBytes.{Appends};
ghost use Rattle.names.specs.Names.{repo_text};
ghost use Rattle.model.specs.RepoState.{objects_of};
ghost use Rattle.refinement.specs.Left.{Reads};
ghost use Rattle.operator.specs.Failing.{IsPlain};
ghost use Rattle.operator.specs.Lines.{object_line};
ghost use Rattle.operator.specs.Listed.{line};
ghost use Rattle.operator.specs.Printed.{object_lines};
ghost use Rattle.operator.specs.Texts.{text_of};

use crate::faults::TaskFault;
use crate::lines::object_line;
use crate::output::Lines;
use names::{RepoName, Sink};
use std::alloc::{AllocError, Global};
use store::Store;
use uploads::Stored;

/// A line for each object.
fn lines_of(alloc: Global, rows: &[Stored]) -> Result<Lines, AllocError>
    ensures { IfOk result (λ lines. text_of lines
        ≡ flat_map (λ row. line (object_line row.oid row.size)) rows.now) }
{
    let mut lines = Lines::new(alloc);
    for row in rows {
        lines.push(object_line(alloc, row)?.as_bytes())?;
    }
    Ok(lines)
}

/// Prints a line for each object of the repository, in rising names.
///
/// # Errors
///
/// `Store` and `Memory`, and `Output` if a line could not be written.
pub(crate) fn list_objects<S: Store, K: Sink>(
    alloc: Global,
    store: &mut S,
    repo: &RepoName,
    output: &mut K,
) -> Result<(), TaskFault>
    ensures reads { Reads S.State store.old store.new (λ world. OnOk result
        (Appends (K.taken output.old) (K.taken output.new)
        (object_lines (objects_of (repo_text repo.now) world)))) }
    ensures good { OnOk result (K.failed output.new ≡ K.failed output.old) }
    ensures err { IfErr result IsPlain }
{
    let rows = uploads::all(alloc, store, Some(repo))?;
    lines_of(alloc, rows.as_slice())?.write(output)
}
