ghost use Rattle.std.specs.Prelude.{◌≡◌, IsTrue};
ghost use Rattle.tables.specs.Order.{IsInOrder, files_in_order, memory_in_order};

use sqlite::Alter;
use sqlite_disk::Disk;
use sqlite_store::FileStore;
use sqlite_trees::memory::MemStore;

/// Storage for the tables of a database that may already hold some: memory, or a file and its log.
pub trait Storage: Alter {
    // The rows of each committed table are in the order of their rowids.
    ghost in_order: { (s : Self) → IsTrue (Self.Store.view s).is_open
        → (Self.Store.view s).trees ≡ (Self.Store.view s).committed → IsInOrder (Self.Store.view s) };
}

impl Storage for MemStore {
    ghost in_order = { λ s _ same. memory_in_order s same };
}

impl<D: Disk> Storage for FileStore<D> {
    ghost in_order = { λ s is_open _. files_in_order s is_open };
}
