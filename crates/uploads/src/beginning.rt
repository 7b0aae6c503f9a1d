//! Begins uploads.

ghost use Rattle.refinement.specs.Left.{From, Keeps};
ghost use Rattle.uploads.specs.Beginning.{Begins};

use crate::finding::is_retired;
use crate::removing::shorten;
use names::{Oid, RepoName, Size};
use std::alloc::Global;
use store::Store;
use tables::{NewUpload, StoreFault, UploadId};

/// Removes all chunks but the first part of those of the upload that the repository has staged, if it has one.
///
/// # Errors
///
/// `Refused` or `Memory`. Some of the chunks may be removed.
fn shorten_staged<S: Store>(alloc: Global, store: &mut S, repo: &RepoName) -> Result<(), StoreFault>
    ensures { From S.State store.old store.new (Keeps S.State store.old store.new) }
{
    let Some(staged) = store.staged_upload(alloc, repo)? else {
        return Ok(());
    };
    shorten(store, staged.id)
}

/// Begins an upload of an object of this name and this size, and returns its id. It is staged, with no bytes yet, and
/// takes the place of any upload that the repository had staged.
///
/// # Errors
///
/// `Refused`, also for a name that the repository has retired, of which nothing is ever staged, or `Memory`. The objects
/// of the store are unchanged in any case; after a stop, the upload that was staged before may be gone.
pub fn begin<S: Store>(
    alloc: Global,
    store: &mut S,
    repo: &RepoName,
    oid: &Oid,
    size: Size,
) -> Result<UploadId, StoreFault>
    ensures { From S.State store.old store.new (λ world.
        Begins S.State world repo.now oid.now size store.old store.new result) }
{
    if is_retired(store, repo, oid)? {
        return Err(StoreFault::Refused);
    }
    shorten_staged(alloc, store, repo)?;
    store.begin_upload(alloc, &NewUpload { repo, oid, size })
}
