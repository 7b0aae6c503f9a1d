//! Opens stores.

ghost use Rattle.std.specs.Prelude.{◌≡◌, ◌↔◌, ◌⊎◌, IsTrue, [], ◌∷◌, codes, IfOk, IsErr, OnErr, OnOk};
ghost use Rattle.sqlite_wal.specs.Files.{image_at};
ghost use Rattle.sqlite_wal.specs.Reads.{AreClean};
ghost use Rattle.sqlite.specs.Closing.{IsCopied};
ghost use Rattle.sqlite.specs.Start.{FindsIn};
ghost use Rattle.sqlite.specs.Steps.{over_memory};
ghost use Rattle.sqlite.specs.Files.{over_files, file_state, IsNothing};
ghost use Rattle.sqlite_catalog.specs.Listing.{IsSound};
ghost use Rattle.sqlite_trees.specs.Objects.{catalog_tree};
ghost use Rattle.tables.specs.Layout.{version_of};
ghost use Rattle.tables.specs.Schemas.{HasAll};
ghost use Rattle.tables.specs.Runs.{current_meta, meta_of};
ghost use Rattle.tables.specs.Shown.{connection, committed, IsHonest, IsOpen, HasNoTable, HasOurs, IsForeign, IsUnknown, fresh_on, HasTables, shown, Leaves, IsSafe, Rests, AddsFresh, AddsMigrated, MigratesTo, IsMigrated};

use crate::fault::{OpenFault, StoreFault};
use crate::layout::Layout;
use crate::rows::Migrated;
use crate::storage::Storage;
use crate::{Store, schema};
use sqlite::{Alter, Connection, FileFrom, FileStore, MemStore, Start};
use sqlite_disk::{Disk, Files};
use std::alloc::Global;
use std::rt::HostRuntime;

impl Store<MemStore> {
    /// Opens an empty database in memory.
    ///
    /// # Errors
    ///
    /// `Memory` if memory runs out.
    pub fn open_memory(alloc: Global) -> Result<Store<MemStore>, StoreFault>
        ensures { IfOk result (λ store. IsOpen over_memory store × HasNoTable over_memory store) }
    {
        match Connection::open_in_memory(alloc) {
            Ok(conn) => Ok(Store::adopt(conn)),
            Err(_) => Err(StoreFault::Memory),
        }
    }
}

impl<S: Start> Store<FileStore<FileFrom<S>>> {
    /// Opens the file at the path, or creates it. `start` represents the contents of the file and its log, as a stop
    /// may have left them; the store then has the database that they hold, and no table if they hold nothing.
    ///
    /// # Errors
    ///
    /// `Refused` or `Memory`; `:memory:` and URIs are refused.
    pub fn open_from(
        rt: &HostRuntime,
        path: &str,
        start: S,
    ) -> Result<Store<FileStore<FileFrom<S>>>, StoreFault>
        ensures memory { path.now ≡ codes ":memory:" → IsErr result }
        ensures opened { IfOk result
            (λ store. IsHonest over_files store → IsOpen over_files store) }
        ensures found { IfOk result
            (λ store. IsHonest over_files store
            → FindsIn (image_at S.Start) (file_state (connection store))) }
        ensures empty { IfOk result
            (λ store. IsHonest over_files store → IsNothing (image_at S.Start)
            → HasNoTable over_files store) }
    {
        match Connection::open_from(rt, path, false, start) {
            Ok(conn) => Ok(Store::adopt(conn)),
            Err((error, _)) => Err(StoreFault::from(error)),
        }
    }
}

impl<D: Disk + Drop> Store<FileStore<D>> {
    /// Closes the database: copies what its log has into the file, which then holds the database alone, also after a
    /// stop. Returns both files.
    ///
    /// # Errors
    ///
    /// `Refused` or `Memory` if it could not be copied. The file and its log then hold the database together, as before.
    pub fn close(self) -> Result<Files<D>, StoreFault>
        ensures { IfOk result (λ files.
            AreClean D.Disk files.log files.db → IsCopied (connection self) files) }
    {
        match self.conn.close_files() {
            Ok(files) => Ok(files),
            Err((error, _)) => Err(StoreFault::from(error)),
        }
    }
}

impl<S: Alter> Store<S> {
    /// Makes a store of a connection that the caller opened.
    pub fn adopt(conn: Connection<S>) -> Store<S>
        ensures { connection result ≡ conn }
    {
        Store { conn, staged: None }
    }

    /// Returns the connection.
    pub fn into_connection(self) -> Connection<S>
        ensures { result ≡ connection self }
    {
        self.conn
    }
}

impl<S: Storage> Store<S> {
    /// Whether the database has none of our tables, and nothing in their way.
    pub fn is_new(&self) -> bool
        ensures { IsTrue result ↔ HasNoTable S.Store self.now }
    {
        schema::is_new(&self.conn)
    }

    /// Gives a database that has none of our tables those of the layout, all or none, and leaves one that has them,
    /// whatever other tables it has. The result holds whatever the file held before.
    ///
    /// # Errors
    ///
    /// `UnknownSchema` for any other database, one of version 1 or of another layout too; `Store` of `Refused` or
    /// `Memory`. The database is unchanged, but if it had none of our tables, a stop may still leave them.
    pub fn create_or_check(&mut self, alloc: Global, layout: Layout) -> Result<(), OpenFault>
        ensures ready { OnOk result (HasTables S.Store self.new) }
        ensures version { IsHonest S.Store self.new
            → OnOk result (IsOpen S.Store self.new
            → (shown S.Store self.new).meta ≡ meta_of (version_of layout) ∷ []) }
        ensures ok { IsHonest S.Store self.new
            → OnOk result ((HasNoTable S.Store self.old
            × (shown S.Store self.new ≡ fresh_on S.Store (version_of layout) self.old))
            ⊎ Rests S.Store self.old self.new) }
        ensures safe { IsHonest S.Store self.new → OnOk result (IsSafe S.Store self.new) }
        ensures only { IsHonest S.Store self.new
            → OnOk result ((t : _) → Leaves S.Store self.new t
            → (HasNoTable S.Store self.old × (t ≡ fresh_on S.Store (version_of layout) self.old))
            ⊎ (HasOurs S.Store (version_of layout) self.old × (t ≡ shown S.Store self.old))) }
        ensures ours { IsHonest S.Store self.new → (schema : _) → HasAll (version_of layout) schema
            → IsSound schema (committed S.Store self.old)
            → OnOk result (HasOurs S.Store (version_of layout) self.old) }
        ensures empty { IsHonest S.Store self.new → committed S.Store self.old catalog_tree ≡ []
            → OnOk result (HasNoTable S.Store self.old) }
        ensures err { IsHonest S.Store self.new → OnErr result (Rests S.Store self.old self.new) }
        ensures unknown { IsHonest S.Store self.new → result ≡ Err OpenFault.UnknownSchema
            → IsForeign S.Store (version_of layout) self.old }
        ensures stop { AddsFresh S.Store (version_of layout) self.old self.new }
    {
        self.staged = None;
        schema::create_or_check(alloc, &mut self.conn, layout)
    }

    /// Gives a database of version 1 the tables of version 2, all or none, and leaves its other rows. Any other database
    /// is treated as [`create_or_check`](Store::create_or_check) treats it.
    ///
    /// # Errors
    ///
    /// `UnknownSchema` for a database that is neither, `Store` of `Refused` or `Memory`. The database is unchanged, but
    /// a stop may still leave version 2, if it was of version 1 or had none of our tables.
    pub fn migrate(&mut self, alloc: Global) -> Result<Migrated, OpenFault>
        ensures ready { OnOk result (HasTables S.Store self.new) }
        ensures version { IsHonest S.Store self.new
            → OnOk result (IsOpen S.Store self.new
            → (shown S.Store self.new).meta ≡ current_meta ∷ []) }
        ensures ok { IsHonest S.Store self.new
            → IfOk result (MigratesTo S.Store self.old self.new) }
        ensures safe { IsHonest S.Store self.new → OnOk result (IsSafe S.Store self.new) }
        ensures only { IsHonest S.Store self.new
            → IfOk result (λ migrated. (t : _) → Leaves S.Store self.new t
            → IsMigrated S.Store self.old migrated t) }
        ensures err { IsHonest S.Store self.new → OnErr result (Rests S.Store self.old self.new) }
        ensures unknown { IsHonest S.Store self.new → result ≡ Err OpenFault.UnknownSchema
            → IsUnknown S.Store self.old }
        ensures stop { AddsMigrated S.Store self.old self.new }
    {
        self.staged = None;
        schema::migrate(alloc, &mut self.conn)
    }
}
