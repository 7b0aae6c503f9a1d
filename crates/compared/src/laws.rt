//! Laws of tables that are the same.

ghost use Rattle.std.specs.Prelude.{◌≡◌, [], ◌∷◌};
ghost use Rattle.model.specs.World.{World};
ghost use Rattle.tables.specs.Rows.{Tables};
ghost use Rattle.tables.specs.Runs.{current_meta};
ghost use Rattle.store.specs.Normal.{AreMarked};
ghost use Rattle.refinement.specs.Representation.{Represents};
ghost use Rattle.compared.specs.Same.{AreSame};

/// Tables that are the same as others represent the world of the others.
pub fn same_law()
    ensures { (old new : Tables) (world : World) → AreSame old new → AreMarked old
        → new.meta ≡ current_meta ∷ [] → Represents old world → Represents new world }
{}
