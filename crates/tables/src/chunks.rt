//! The calls on the chunks of uploads.

ghost use Rattle.std.specs.Prelude.{◌≡◌, ⊤, pos, find, filter, map, slice_get};
ghost use Rattle.tables.specs.Statements.{is_chunk, has_number, show_bytes, with_chunk};
ghost use Rattle.tables.specs.Staging.{upload_number, asked_chunk, chunk_bytes, IsChunkOf, AreNumbered};
ghost use Rattle.tables.specs.Calls.{Does, Transacts};
ghost use Rattle.tables.specs.Shown.{Reads, Changes};

use crate::Store;
use crate::fault::StoreFault;
use crate::read::read;
use crate::rows::{NumberedChunk, UploadId, all_numbered};
use crate::write::{change, finish_with};
use sqlite::{Alter, Connection, Error, Row, Transaction, params};
use sqlite_value::value::ValueRef;
use std::alloc::Global;

pub(crate) fn chunk_into<S: Alter>(
    tx: &mut Transaction<'_, S>,
    upload: UploadId,
    n: u32,
    bytes: &[u8],
) -> Result<usize, Error>
    ensures same_reference { tx.new.conn.ghost_name ≡ tx.old.conn.ghost_name }
    ensures does { Does S.Store tx.old.conn.now tx.new.conn.now result
        (with_chunk (asked_chunk (upload_number upload) n bytes.now)) }
{
    change(
        tx,
        "INSERT INTO chunks (upload, n, bytes) VALUES (?1, ?2, ?3)",
        params![upload.number, n, bytes],
    )
}

#[tactic(auto, using(crate::proofs::Calls::led))]
fn add_chunk<S: Alter>(
    conn: &mut Connection<S>,
    upload: UploadId,
    n: u32,
    bytes: &[u8],
) -> Result<(), StoreFault>
    ensures { Transacts S.Store conn.old conn.new result
        (with_chunk (asked_chunk (upload_number upload) n bytes.now)) (λ _ _. ⊤) }
{
    if !conn.is_autocommit() {
        return Err(StoreFault::Refused);
    }
    let mut tx = conn.transaction();
    chunk_into(&mut tx, upload, n, bytes)?;
    finish_with(tx, ())
}

/// A chunk of an upload, whose bytes are lent as the database read them.
#[derive(Debug, Drop)]
pub struct ChunkRow {
    row: Row,
}

impl ChunkRow {
    /// Returns its bytes.
    pub fn bytes(&self) -> &[u8]
        ensures { result.now ≡ chunk_bytes self.now }
    {
        match self.row.get_ref(0) {
            Ok(ValueRef::Blob(bytes)) => bytes,
            Ok(ValueRef::Text(text)) => text,
            _ => &[],
        }
    }
}

/// The chunk in the first of the rows.
fn first_chunk(mut rows: Vec<Row>) -> Option<ChunkRow>
    ensures { (chunks : _) → rows.items ≡ map show_bytes chunks
        → IsChunkOf result (slice_get chunks 0) }
{
    if rows.is_empty() {
        return None;
    }
    Some(ChunkRow {
        row: rows.remove(0),
    })
}

impl<S: Alter> Store<S> {
    /// Returns the chunk of the upload with this number, if there is one.
    ///
    /// # Errors
    ///
    /// `Refused` or `Memory`. The tables are unchanged in any case.
    pub fn chunk(&mut self, upload: UploadId, n: u32) -> Result<Option<ChunkRow>, StoreFault>
        ensures { Reads S.Store self.old self.new result
            (λ t found. IsChunkOf found (find (is_chunk (upload_number upload) (pos n)) t.chunks)) }
    {
        let rows = read(
            &mut self.conn,
            "SELECT bytes FROM chunks WHERE upload = ?1 AND n = ?2 ORDER BY rowid",
            params![upload.number, n],
        )?;
        Ok(first_chunk(rows))
    }

    /// Returns the chunks with this number, of all uploads, in the order in which they were added.
    ///
    /// # Errors
    ///
    /// `Refused` or `Memory`. The tables are unchanged in any case.
    pub fn chunks_numbered(
        &mut self,
        alloc: Global,
        n: u32,
    ) -> Result<Vec<NumberedChunk>, StoreFault>
        ensures { Reads S.Store self.old self.new result
            (λ t found. AreNumbered found.items (filter (has_number (pos n)) t.chunks)) }
    {
        let rows = read(
            &mut self.conn,
            "SELECT upload, bytes FROM chunks WHERE n = ?1 ORDER BY rowid",
            params![n],
        )?;
        all_numbered(alloc, rows.as_slice())
    }

    /// Adds a chunk to the upload, under this number. The numbers of an upload's chunks count from 0 up.
    ///
    /// # Errors
    ///
    /// `Refused`, also if the upload has a chunk with this number, or `Memory`. The tables are unchanged, but a stop
    /// may still leave the change.
    pub fn add_chunk(&mut self, upload: UploadId, n: u32, bytes: &[u8]) -> Result<(), StoreFault>
        ensures { Changes S.Store self.old self.new result
            (with_chunk (asked_chunk (upload_number upload) n bytes.now)) (λ _ _. ⊤) }
    {
        add_chunk(&mut self.conn, upload, n, bytes)
    }
}
