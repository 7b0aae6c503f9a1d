//! Reads a part of the content of an upload.

ghost use Rattle.std.specs.Prelude.{◌≡◌, ◌≤◌, length, take, drop, IfOk, IfSome};
ghost use Rattle.tables.specs.Staging.{upload_number};
ghost use Rattle.store.specs.Shown.{Moves, AddsNothing};
ghost use Rattle.chunks.specs.Pouring.{OfBytes};

use std::alloc::Global;
use store::Store;
use tables::{StoreFault, UploadId};

/// Returns bytes of an upload from the byte `at` on, at most `most` of them; `None` if its content is in rows.
///
/// # Errors
///
/// `Refused`, also if the file of contents fails to return the bytes, or `Memory`.
pub fn portion<S: Store>(
    alloc: Global,
    store: &mut S,
    upload: UploadId,
    at: u64,
    most: usize,
) -> Result<Option<Vec<u8>>, StoreFault>
    ensures bytes { IfOk result (λ found. IfSome found (λ part.
        OfBytes S.State store.old store.new (upload_number upload)
        (λ content. part.items ≡ take (length part.items) (drop at content)))) }
    ensures few { IfOk result (λ found. IfSome found (λ part. length part.items ≤ most)) }
    ensures same { Moves S.State (λ t. t) store.old store.new }
    ensures adds { AddsNothing S.State store.old store.new }
{
    match store.content_at(alloc, upload, at, most) {
        Ok(found) => Ok(found),
        Err(fault) => Err(fault.into()),
    }
}
