//! Removes an object for good.

ghost use Rattle.std.specs.Prelude.{◌≡◌, ◌++◌, codes, IfErr, MatchResult, OnOk};
ghost use Rattle.std.specs.Io.KnownBytes.{Appends};
ghost use Rattle.names.specs.Names.{repo_text};
ghost use Rattle.model.specs.Operator.{removal_of};
ghost use Rattle.refinement.specs.Left.{From};
ghost use Rattle.uploads.specs.Retiring.{removal_seen};
ghost use Rattle.operator.specs.declared.faults.TaskFault.TheVariants.{Output};
ghost use Rattle.operator.specs.Failing.{Fails, IsOutput};
ghost use Rattle.operator.specs.Lines.{retired_line};
ghost use Rattle.operator.specs.Listed.{line};
ghost use Rattle.operator.specs.Removals.{IsGone, IsRemovalFault, IsRemovalOf, IsRemoved, IsReportFault};

use crate::faults::TaskFault;
use crate::output::print;
use arrayvec::ArrayString;
use names::{Oid, RepoName, Sink};
use std::alloc::Global;
use std::fmt::Write;
use store::Store;
use uploads::Retired;

/// Prints what became of the object. This needs no memory, so it can be done after the removal.
fn print_line<K: Sink>(output: &mut K, became: &str, oid: &Oid) -> Result<(), TaskFault>
    ensures text { OnOk result (Appends (K.taken output.old) (K.taken output.new)
        (line (became.now ++ codes " " ++ oid.now))) }
    ensures good { OnOk result (K.failed output.new ≡ K.failed output.old) }
    ensures err { IfErr result (λ fault. fault ≡ Output) }
{
    let mut line = ArrayString::<96>::new();
    match writeln!(line, "{became} {oid}") {
        Ok(()) => print(output, line.as_bytes()),
        Err(_) => Err(TaskFault::Output),
    }
}

/// Prints that the object was removed, now or before.
///
/// # Errors
///
/// `NoObject` if there was none, and `Output` if the line could not be written.
fn report<K: Sink>(output: &mut K, oid: &Oid, removal: Retired) -> Result<(), TaskFault>
    ensures gone { OnOk result (IsGone (removal_seen removal)) }
    ensures text { OnOk result (Appends (K.taken output.old) (K.taken output.new)
        (line (retired_line (removal_seen removal) oid.now))) }
    ensures err { IfErr result (IsReportFault (removal_seen removal)) }
    ensures good { OnOk result (K.failed output.new ≡ K.failed output.old) }
{
    let became = match removal {
        Retired::Now => "retired",
        Retired::Already => "already retired",
        Retired::Unknown => return Err(TaskFault::NoObject),
    };
    print_line(output, became, oid)
}

/// Removes the object that the repository has under this name, for good, and prints whether that was done now or before.
///
/// # Errors
///
/// `NoObject` if the repository has neither the object nor its name among those removed; `Store` and `Memory`, which leave
/// the object; and `Output` if the line could not be written: the object is removed all the same.
pub(crate) fn retire<S: Store, K: Sink>(
    alloc: Global,
    store: &mut S,
    repo: &RepoName,
    oid: &Oid,
    output: &mut K,
) -> Result<(), TaskFault>
    ensures world { From S.State store.old store.new (λ world. MatchResult result
        (λ _. IsRemoved S.State store.old store.new world (repo_text repo.now) oid.now)
        (λ fault. Fails S.State (IsRemovalOf (repo_text repo.now) oid.now) (IsOutput fault)
        store.old store.new world
        × IsRemovalFault (removal_of world (repo_text repo.now) oid.now) fault)) }
    ensures printed { From S.State store.old store.new (λ world. OnOk result
        (Appends (K.taken output.old) (K.taken output.new)
        (line (retired_line (removal_of world (repo_text repo.now) oid.now) oid.now)))) }
    ensures good { OnOk result (K.failed output.new ≡ K.failed output.old) }
{
    let removal = uploads::retire(alloc, store, repo, *oid)?;
    report(output, oid, removal)
}
