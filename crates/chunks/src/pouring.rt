//! Writes the bytes of an upload to a sink, chunk by chunk.

ghost use Rattle.std.specs.Prelude.{◌≡◌, ◌≢◌, ◌+◌, ◌≤◌, ℕ, List, length, take, pos, find, option_map, Some, None, Ok, Err, IfOk, IfErr, OnOk, OnErr};
ghost use Rattle.std.specs.Io.KnownBytes.{Appends};
ghost use Rattle.names.specs.Streams.{HasGrown};
ghost use Rattle.tables.specs.Rows.{Chunk};
ghost use Rattle.tables.specs.Statements.{is_chunk};
ghost use Rattle.tables.specs.Staging.{upload_number};
ghost use Rattle.store.specs.Content.{IsContentOf};
ghost use Rattle.store.specs.Shown.{IsHonest, IsOpen, HasTables, shown, Moves, AddsNothing};
ghost use Rattle.chunks.specs.Pouring.{TookFront, TookAll, IsCause, OfBytes};

use names::{Sink, write_whole};
use store::{ChunkContent, Store};
use tables::{StoreFault, UploadId};
use thiserror::Error;

/// Why the bytes of an upload were not written to their end.
#[derive(Clone, Copy, Debug, PartialEq, Eq, Error)]
pub enum PourCause {
    /// The store refused, or memory ran out.
    #[error("{0}")]
    Store(StoreFault),
    /// The sink failed.
    #[error("the device failed")]
    Device,
}

/// The bytes of an upload were not written to their end.
#[derive(Clone, Copy, Debug, PartialEq, Eq, Error)]
#[error("{cause}, after {written} bytes")]
pub struct PourFault {
    /// The number of bytes that the sink took, from the front of the upload's.
    pub written: u64,
    pub cause: PourCause,
}

/// Reads the chunk with this number.
fn read_chunk<S: Store>(
    store: &mut S,
    upload: UploadId,
    n: u32,
    written: u64,
) -> Result<Option<ChunkContent>, PourFault>
    ensures answers { IsHonest S.State store.new → HasTables S.State store.old → IfOk result
        (λ found. IsOpen S.State store.old × IsContentOf found
        (find (is_chunk (upload_number upload) (pos n)) (shown S.State store.old).chunks)) }
    ensures same { Moves S.State (λ t. t) store.old store.new }
    ensures adds { AddsNothing S.State store.old store.new }
    ensures fault { IfErr result (λ e. (e.written ≡ written)
        × (fault : StoreFault) × (e.cause ≡ PourCause.Store fault)) }
{
    match store.chunk(upload, n) {
        Ok(chunk) => Ok(chunk),
        Err(fault) => Err(PourFault {
            written,
            cause: PourCause::Store(fault.into()),
        }),
    }
}

/// Writes the bytes, after those that were written before, and returns the number of both.
fn write_bytes<K: Sink>(sink: &mut K, bytes: &[u8], written: u64) -> Result<u64, PourFault>
    ensures all { IfOk result (λ total. (total ≡ written + length bytes.now)
        × Appends (K.taken sink.old) (K.taken sink.new) bytes.now) }
    ensures good { OnOk result (K.failed sink.new ≡ K.failed sink.old) }
    ensures part { IfErr result (λ e. (k : ℕ) × (e.written ≡ written + k)
        × TookFront e.cause (K.taken sink.old) (K.taken sink.new) bytes.now k) }
    ensures fault { IfErr result (λ e. IsCause e.cause (K.failed sink.old) (K.failed sink.new)) }
{
    let Some(total) = written.checked_add(bytes.len() as u64) else {
        return Err(PourFault {
            written,
            cause: PourCause::Store(StoreFault::Refused),
        });
    };
    match write_whole(sink, bytes) {
        Ok(()) => Ok(total),
        Err(fault) => Err(PourFault {
            written: written + fault.written as u64,
            cause: PourCause::Device,
        }),
    }
}

/// Writes the bytes of the upload to the sink, and returns their number. One chunk at a time is in memory.
///
/// # Errors
///
/// A [`PourFault`]: the sink took a prefix of the bytes. If the sink is the cause, it counts one failure, and it did
/// not take all of the bytes.
pub fn pour<S: Store, K: Sink>(
    store: &mut S,
    upload: UploadId,
    sink: &mut K,
) -> Result<u64, PourFault>
    ensures all { IfOk result (λ count. OfBytes S.State store.old store.new (upload_number upload)
        (TookAll (K.taken sink.old) (K.taken sink.new) count)) }
    ensures part { IfErr result (λ e. OfBytes S.State store.old store.new (upload_number upload)
        (λ bytes. TookFront e.cause (K.taken sink.old) (K.taken sink.new) bytes e.written)) }
    ensures good { OnOk result (K.failed sink.new ≡ K.failed sink.old) }
    ensures fault { IfErr result (λ e. IsCause e.cause (K.failed sink.old) (K.failed sink.new)) }
    ensures same { Moves S.State (λ t. t) store.old store.new }
    ensures adds { AddsNothing S.State store.old store.new }
{
    let mut written = 0;
    let mut n = 0;
    'chunks: while n < u32::MAX {
        match read_chunk(store, upload, n, written) {
            Ok(Some(chunk)) => match write_bytes(sink, chunk.bytes(), written) {
                Ok(total) => written = total,
                Err(fault) => return Err(fault),
            },
            Ok(None) => return Ok(written),
            Err(fault) => return Err(fault),
        }
        n += 1;
    }
    Err(PourFault {
        written,
        cause: PourCause::Store(StoreFault::Refused),
    })
}
