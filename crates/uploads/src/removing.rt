//! Removes uploads that are not completed.

ghost use Rattle.std.specs.Prelude.{◌≤◌, IfOk, OnOk, ⊤};
ghost use Rattle.tables.specs.Staging.{upload_number};
ghost use Rattle.refinement.specs.Left.{From, Keeps, Reads};
ghost use Rattle.refinement.specs.Staging.{StagesNone};
ghost use Rattle.uploads.specs.Removing.{Shortens, Sweeps};

use std::alloc::Global;
use store::Store;
use tables::{StoreFault, UploadId};

/// The number of chunks that are removed in one transaction, so that none takes much memory or room in the log.
const PART: u32 = 256;

/// The most parts that an upload may have after the first one, since the number of a chunk is below 2^32.
const MOST: u32 = 16_777_215;

/// Returns how many parts of chunks the upload has after the first one.
///
/// # Errors
///
/// `Refused` or `Memory`. The contents of the store are unchanged in any case.
fn later_parts<S: Store>(store: &mut S, id: UploadId) -> Result<u32, StoreFault>
    ensures reads { Reads S.State store.old store.new (λ _. ⊤) }
    ensures few { IfOk result (λ count. count ≤ 16777215) }
{
    for part in 0..MOST {
        if store.chunk(id, (part + 1) * PART)?.is_none() {
            return Ok(part);
        }
    }
    Ok(MOST)
}

/// Removes the chunks of a staged upload, the last ones first, in transactions of [`PART`] chunks. The first [`PART`] chunks
/// are left.
///
/// # Errors
///
/// `Refused` or `Memory`. Some of the chunks may be removed.
pub(crate) fn shorten<S: Store>(store: &mut S, id: UploadId) -> Result<(), StoreFault>
    ensures { From S.State store.old store.new (Shortens S.State store.old store.new) }
{
    let mut left = later_parts(store, id)?;
    'parts: while left > 0 {
        store.shorten_upload(id, left * PART)?;
        left -= 1;
    }
    Ok(())
}

/// Removes an upload with its bytes, if it is staged. An object is never removed. One with many bytes is removed in several
/// transactions.
///
/// # Errors
///
/// `Refused` or `Memory`. The upload may still be staged, without some of its bytes. No object is changed in any case.
pub fn abandon<S: Store>(store: &mut S, id: UploadId) -> Result<(), StoreFault>
    ensures { From S.State store.old store.new (λ world.
        Keeps S.State store.old store.new world
        × OnOk result (StagesNone S.State store.new (upload_number id))) }
{
    shorten(store, id)?;
    store.remove_upload(id)?;
    Ok(())
}

/// Removes each staged upload with its bytes, and returns how many there were. No object is removed.
///
/// # Errors
///
/// `Refused` or `Memory`. Some of the uploads may still be staged. No object is changed in any case.
pub fn sweep<S: Store>(alloc: Global, store: &mut S) -> Result<u64, StoreFault>
    ensures { From S.State store.old store.new (λ world.
        Sweeps S.State world store.old store.new result) }
{
    let staged = store.staged_uploads(alloc)?;
    for upload in staged.as_slice() {
        shorten(store, upload.id)?;
        store.remove_upload(upload.id)?;
    }
    Ok(staged.len() as u64)
}
