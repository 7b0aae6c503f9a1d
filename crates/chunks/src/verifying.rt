//! Compares the stored bytes of an upload with its name and its size.

ghost use Rattle.std.specs.Prelude.{◌≡◌, ◌&&◌, ℕ, List, length, nat_eq, bytes_eq, IfOk};
ghost use Rattle.model.specs.World.{name_of};
ghost use Rattle.tables.specs.Staging.{upload_number};
ghost use Rattle.store.specs.Shown.{Moves, AddsNothing};
ghost use Rattle.chunks.specs.Intakes.{HasCounted};
ghost use Rattle.chunks.specs.Pouring.{OfBytes};

use crate::intake::name_of;
use names::{Oid, Size};
use sha2::{Digest, Sha256};
use store::{ReadFault, Store};
use tables::{StoreFault, UploadId};

/// Whether the bytes that were hashed and counted are as many as `size`, and have this name.
fn are_named(hasher: Sha256, count: u64, oid: &Oid, size: Size) -> Result<bool, ReadFault>
    ensures { (bytes : List ℕ) → HasCounted hasher count bytes → IfOk result
        (λ named. named ≡ (nat_eq (length bytes) size && bytes_eq (name_of bytes) oid.now)) }
{
    let name = name_of(hasher)?;
    Ok(count == size.get() && name.text() == oid.text())
}

/// Returns whether the stored bytes of the upload are as many as `size`, and have this name. One chunk at a time is in
/// memory.
///
/// # Errors
///
/// `Unreadable` if the file of contents does not return a byte of them; `Refused` or `Memory`. The tables are unchanged
/// in any case.
pub fn is_whole<S: Store>(
    store: &mut S,
    upload: UploadId,
    oid: &Oid,
    size: Size,
) -> Result<bool, ReadFault>
    ensures exact { OfBytes S.State store.old store.new (upload_number upload) (λ bytes. IfOk result
        (λ whole. whole ≡ (nat_eq (length bytes) size && bytes_eq (name_of bytes) oid.now))) }
    ensures same { Moves S.State (λ t. t) store.old store.new }
    ensures adds { AddsNothing S.State store.old store.new }
{
    let mut hasher = Sha256::new();
    let mut count = 0u64;
    let mut n = 0u32;
    'chunks: while n < u32::MAX {
        let Some(chunk) = store.chunk(upload, n)? else {
            return are_named(hasher, count, oid, size);
        };
        let bytes = chunk.bytes();
        let Some(total) = count.checked_add(bytes.len() as u64) else {
            return Err(ReadFault::Store(StoreFault::Refused));
        };
        hasher.update(bytes);
        count = total;
        n += 1;
    }
    Err(ReadFault::Store(StoreFault::Refused))
}
