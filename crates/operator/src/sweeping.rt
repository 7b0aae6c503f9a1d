//! Removes the uploads that were not completed.

ghost use Rattle.std.specs.Prelude.{◌≡◌, ℕ, List, OnOk, Ok, MatchResult};
ghost use Rattle.std.specs.Io.KnownBytes.{Appends};
ghost use Rattle.refinement.specs.Left.{From, Keeps};
ghost use Rattle.uploads.specs.Removing.{Sweeps};
ghost use Rattle.operator.specs.Failing.{IsPlain};
ghost use Rattle.operator.specs.Printed.{PrintsSwept};

use crate::faults::TaskFault;
use crate::output::print_count;
use names::Sink;
use std::alloc::Global;
use store::Store;

/// Removes the uploads that were not completed, and prints their number.
///
/// # Errors
///
/// `Store` and `Memory`, after which some of the uploads may be removed; and `Output` if the line could not be written:
/// the uploads are removed all the same. No object is removed in any case.
pub(crate) fn sweep<S: Store, K: Sink>(
    alloc: Global,
    store: &mut S,
    output: &mut K,
) -> Result<(), TaskFault>
    ensures world { From S.State store.old store.new (λ world. MatchResult result
        (λ _. (n : ℕ) × Sweeps S.State world store.old store.new (Ok n))
        (λ fault. Keeps S.State store.old store.new world × IsPlain fault)) }
    ensures printed { From S.State store.old store.new (λ _. OnOk result ((text : List ℕ)
        × PrintsSwept S.State store.old text
        × Appends (K.taken output.old) (K.taken output.new) text)) }
    ensures good { OnOk result (K.failed output.new ≡ K.failed output.old) }
{
    let count = uploads::sweep(alloc, store)?;
    print_count(output, "swept", count, "uploads")
}
