//! The bytes of a chunk that a store read.

ghost use Rattle.std.specs.Prelude.{◌≡◌, option_map};
ghost use Rattle.store.specs.Content.{content_bytes};

use tables::ChunkRow;

/// The bytes of a chunk, as a store read them.
#[derive(Debug, Drop)]
pub enum ChunkContent {
    /// A row of the database has them.
    Row(ChunkRow),
    /// They were read from a file beside the database.
    Bytes(Vec<u8>),
}

/// The chunk in a row of the database.
pub(crate) fn content_in(row: Option<ChunkRow>) -> Option<ChunkContent>
    ensures { result ≡ option_map ChunkContent.Row row }
{
    row.map(ChunkContent::Row)
}

impl ChunkContent {
    /// Returns the bytes.
    pub fn bytes(&self) -> &[u8]
        ensures { result.now ≡ content_bytes self.now }
    {
        match self {
            ChunkContent::Row(row) => row.bytes(),
            ChunkContent::Bytes(bytes) => bytes,
        }
    }
}
