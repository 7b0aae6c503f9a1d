//! Removes tokens.

ghost use Rattle.refinement.specs.Left.{From};
ghost use Rattle.tokens.specs.Pruning.{Prunes};

use names::Moment;
use store::Store;
use tables::StoreFault;

/// Removes the tokens that are not valid at the moment, and returns their number.
///
/// # Errors
///
/// `Refused` or `Memory`, which leave the tables unchanged.
pub fn prune<S: Store>(store: &mut S, now: Moment) -> Result<u64, StoreFault>
    ensures { From S.State store.old store.new (λ world.
        Prunes S.State world now store.old store.new result) }
{
    let removed = store.remove_expired(now)?;
    Ok(removed as u64)
}
