//! Laws of what a store has. Each function does nothing, and its contract is the law.

ghost use Rattle.std.specs.Prelude.{ℕ, ◌+◌, ◌≤◌, List};
ghost use Rattle.names.specs.Texts.{largest_object};
ghost use Rattle.model.specs.World.{World, total};
ghost use Rattle.model.specs.Bounds.{Bound};
ghost use Rattle.refinement.specs.Representation.{Holds};
ghost use Rattle.refinement.specs.Left.{IsBoundedBy};
ghost use Rattle.uploads.specs.Bounds.{AreWithin, StoresWithin, LeavesWithin};

use store::Store;

/// If the sizes of a repository's objects add up to at most `most`, the repository has at most `most` bytes and
/// one largest object in the database, those of a staged upload included. If they do in each world that a stop may leave,
/// it has at most as many in whatever a stop leaves.
pub fn bound_law<S: Store>(store: &S)
    ensures shown { (world : World) (repo : List ℕ) (most : ℕ) → Holds S.State store.now world
        → total repo world ≤ most → StoresWithin S.State store.now repo (most + largest_object) }
    ensures left { (bound : Bound) (repo : List ℕ) (most : ℕ) → IsBoundedBy S.State store.now bound
        → AreWithin repo most bound → LeavesWithin S.State store.now repo (most + largest_object) }
{}
