//! Removes the tokens that have expired.

ghost use Rattle.std.specs.Prelude.{◌≡◌, ℕ, Option, codes, OnOk, Ok, MatchResult};
ghost use Rattle.std.specs.Io.KnownBytes.{Appends};
ghost use Rattle.model.specs.Steps.{prunes};
ghost use Rattle.model.specs.World.{expired_count};
ghost use Rattle.refinement.specs.Left.{From};
ghost use Rattle.tokens.specs.Pruning.{Prunes};
ghost use Rattle.operator.specs.Failing.{Fails, IsOutput, IsPlain};
ghost use Rattle.operator.specs.Lines.{count_line};
ghost use Rattle.operator.specs.Listed.{line};

use crate::faults::TaskFault;
use crate::output::print_count;
use names::{Moment, Sink};
use store::Store;

/// Removes the tokens that are not valid at the moment, and prints their number.
///
/// # Errors
///
/// `Store` and `Memory`, which leave the tokens; and `Output` if the line could not be written: the tokens are removed
/// all the same.
pub(crate) fn prune<S: Store, K: Sink>(
    store: &mut S,
    now: Moment,
    output: &mut K,
) -> Result<(), TaskFault>
    ensures world { From S.State store.old store.new (λ world. MatchResult result
        (λ _. (n : ℕ) × Prunes S.State world now store.old store.new (Ok n))
        (λ fault. Fails S.State (λ event. (given : Option ℕ) × (event ≡ prunes now given))
        (IsOutput fault) store.old store.new world × IsPlain fault)) }
    ensures printed { From S.State store.old store.new (λ world. OnOk result
        (Appends (K.taken output.old) (K.taken output.new)
        (line (count_line (codes "pruned") (expired_count now world) (codes "tokens"))))) }
    ensures good { OnOk result (K.failed output.new ≡ K.failed output.old) }
{
    let count = tokens::prune(store, now)?;
    print_count(output, "pruned", count, "tokens")
}
