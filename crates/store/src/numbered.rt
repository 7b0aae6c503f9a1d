//! Chunks that are found by their number.

ghost use Rattle.store.specs.Content.{AreAllNumbered};
ghost use Rattle.store.specs.Shown.{Reads};

use crate::store::Store;
use std::alloc::Global;
use tables::{Alter, NumberedChunk, StoreFault};

/// A store that lists chunks by their number. A layer over a store, which gives one number a meaning of its own, finds
/// its rows so.
pub trait Numbered: Store {
    /// Returns the chunks with this number, of all uploads, in any order.
    ///
    /// # Errors
    ///
    /// `Refused` or `Memory`. The tables are unchanged in any case.
    fn chunks_numbered(&mut self, alloc: Global, n: u32) -> Result<Vec<NumberedChunk>, StoreFault>
        ensures { Reads Self.State self.old self.new result
            (λ t found. AreAllNumbered n found.items t) };
}

impl<S: Alter> Numbered for tables::Store<S> {
    fn chunks_numbered(&mut self, alloc: Global, n: u32) -> Result<Vec<NumberedChunk>, StoreFault> {
        tables::Store::chunks_numbered(self, alloc, n)
    }
}
