//! The database of a custody server: its tables, and the typed calls on them.
//!
//! A studio keeps one file, `custody.db`, which sqlite3 reads too. It has the large files that the studio pushed, the
//! names of those that were removed for good, the locks that keep two artists off one file, and the tokens that let a
//! client in. This crate is the only one that uses SQL. A call takes and returns rows with named fields, and each change
//! is one transaction: after a stop, at whatever moment, the next open finds the rows before the call or those after it,
//! and nothing between.
#![tactic(auto)]

use sqlite::Connection;
use staged::Remembered;

mod beginning;
mod chunks;
mod discarding;
mod fault;
mod layout;
mod listing;
mod locks;
mod making;
mod new_rows;
mod open;
mod read;
mod restoring;
mod retiring;
mod rows;
mod schema;
mod staged;
mod storage;
mod tokens;
mod uploads;
mod write;

pub use chunks::ChunkRow;
pub use fault::{OpenFault, StoreFault};
pub use layout::Layout;
pub use new_rows::{LastChunk, NewChunk, NewLock, NewToken, NewUpload};
pub use rows::{
    ChunkKey, Completion, Creation, LockRow, MarkedUpload, Migrated, NumberedChunk, ObjectRow,
    RepoLock, RepoRow, RetiredRow, TokenRow, UploadId, UploadRow,
};
pub use sqlite::{Alter, Start, Unknown};
pub use storage::Storage;

/// The tables, over a connection to memory or to a file.
#[derive(Drop)]
pub struct Store<S: Alter> {
    conn: Connection<S>,
    /// For each repository that has a staged upload, the id of that upload; `None` if that is unknown.
    staged: Option<Vec<Remembered>>,
}
