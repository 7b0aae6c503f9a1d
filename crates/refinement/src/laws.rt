//! Laws of what a store holds and leaves.

ghost use Rattle.model.specs.World.{World};
ghost use Rattle.model.specs.Bounds.{Bound, IsWithin, SameWorld};
ghost use Rattle.tables.specs.Rows.{Tables};
ghost use Rattle.store.specs.Shown.{IsHonest};
ghost use Rattle.refinement.specs.Representation.{Represents};
ghost use Rattle.refinement.specs.Left.{IsBoundedBy, IsLeft};

use store::Store;

/// Each world that a stop may leave of a store is within the store's bound.
pub fn bound_law<S: Store>(store: &S)
    ensures { (bound : Bound) → IsHonest S.State store.now → IsBoundedBy S.State store.now bound
        → (world : World) → IsLeft S.State store.now world → IsWithin bound world }
{}

/// Two worlds that the same tables represent count as the same.
pub fn same_law()
    ensures { (t : Tables) (a b : World) → Represents t a → Represents t b → SameWorld a b }
{}
