ghost use Rattle.std.specs.Prelude.{Bool, Option};
ghost use Rattle.tables.specs.Rows.{Tables};
ghost use Rattle.store.specs.declared.room.Room.{Room};

/// What a store is to the contracts of its calls.
pub trait State {
    /// So far its disks have returned what was written, and nothing else wrote its files.
    ghost is_honest: { Self → Type 0 };

    /// It is open.
    ghost is_open: { Self → Type 0 };

    /// While it is honest and open, it has the tables, with rows of their types.
    ghost has_tables: { Self → Type 0 };

    /// The tables that it shows.
    ghost shown: { Self → Tables };

    /// The next open may find these tables, if the process or the machine stops now.
    ghost leaves: { Self → Tables → Type 0 };

    /// Whatever the next open finds is our tables.
    ghost is_safe: { Self → Type 0 };

    /// No sync of a file of contents has failed. After one has, what was written may be lost.
    ghost is_usable: { Self → Bool };

    /// Its file of contents is filled so; `None` if it has none.
    ghost has_room: { Self → Option Room → Type 0 };
}
