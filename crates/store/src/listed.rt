//! All rows of each table.

ghost use Rattle.tables.specs.Steps.{AreTokensOf};
ghost use Rattle.tables.specs.Listing.{AreReposOf, AreRepoLocksOf, AreRetiredOf, AreMarkedOf};
ghost use Rattle.store.specs.Content.{AreAllKeys};
ghost use Rattle.store.specs.Shown.{Reads};

use crate::store::Store;
use std::alloc::Global;
use tables::{Alter, ChunkKey, MarkedUpload, RepoLock, RepoRow, RetiredRow, StoreFault, TokenRow};

/// A store that lists all rows of its tables: a copy of the database is made of them, and compared with it.
pub trait Listed: Store {
    /// Returns all repositories that have a row, with their counts, in the order in which the rows were added.
    ///
    /// # Errors
    ///
    /// `Refused` or `Memory`. The tables are unchanged in any case.
    fn all_repos(&mut self, alloc: Global) -> Result<Vec<RepoRow>, StoreFault>
        ensures { Reads Self.State self.old self.new result
            (λ t found. AreReposOf found.items t.repos) };

    /// Returns the locks of all repositories, in the order in which they were added.
    ///
    /// # Errors
    ///
    /// `Refused` or `Memory`. The tables are unchanged in any case.
    fn all_locks(&mut self, alloc: Global) -> Result<Vec<RepoLock>, StoreFault>
        ensures { Reads Self.State self.old self.new result
            (λ t found. AreRepoLocksOf found.items t.locks) };

    /// Returns all tokens, in the order in which they were added.
    ///
    /// # Errors
    ///
    /// `Refused` or `Memory`. The tables are unchanged in any case.
    fn all_tokens(&mut self, alloc: Global) -> Result<Vec<TokenRow>, StoreFault>
        ensures { Reads Self.State self.old self.new result
            (λ t found. AreTokensOf found.items t.tokens) };

    /// Returns the names that all repositories have retired, in the order in which they were retired.
    ///
    /// # Errors
    ///
    /// `Refused` or `Memory`. The tables are unchanged in any case.
    fn all_retired(&mut self, alloc: Global) -> Result<Vec<RetiredRow>, StoreFault>
        ensures { Reads Self.State self.old self.new result
            (λ t found. AreRetiredOf found.items t.retired) };

    /// Returns all uploads, staged and complete, in rising ids.
    ///
    /// # Errors
    ///
    /// `Refused` or `Memory`. The tables are unchanged in any case.
    fn all_uploads(&mut self, alloc: Global) -> Result<Vec<MarkedUpload>, StoreFault>
        ensures { Reads Self.State self.old self.new result
            (λ t found. AreMarkedOf found.items t.uploads) };

    /// Returns the upload and the number of each chunk, in any order.
    ///
    /// # Errors
    ///
    /// `Refused` or `Memory`. The tables are unchanged in any case.
    fn chunk_keys(&mut self, alloc: Global) -> Result<Vec<ChunkKey>, StoreFault>
        ensures { Reads Self.State self.old self.new result (λ t found. AreAllKeys found.items t) };
}

impl<S: Alter> Listed for tables::Store<S> {
    fn all_repos(&mut self, alloc: Global) -> Result<Vec<RepoRow>, StoreFault> {
        tables::Store::all_repos(self, alloc)
    }

    fn all_locks(&mut self, alloc: Global) -> Result<Vec<RepoLock>, StoreFault> {
        tables::Store::all_locks(self, alloc)
    }

    fn all_tokens(&mut self, alloc: Global) -> Result<Vec<TokenRow>, StoreFault> {
        tables::Store::all_tokens(self, alloc)
    }

    fn all_retired(&mut self, alloc: Global) -> Result<Vec<RetiredRow>, StoreFault> {
        tables::Store::all_retired(self, alloc)
    }

    fn all_uploads(&mut self, alloc: Global) -> Result<Vec<MarkedUpload>, StoreFault> {
        tables::Store::all_uploads(self, alloc)
    }

    fn chunk_keys(&mut self, alloc: Global) -> Result<Vec<ChunkKey>, StoreFault> {
        tables::Store::chunk_keys(self, alloc)
    }
}
