//! Completes uploads.

ghost use Rattle.std.specs.Prelude.{◌≡◌, Err};
ghost use Rattle.refinement.specs.Left.{From};
ghost use Rattle.uploads.specs.Completing.{Staged, Arrives, Completes};
ghost use Rattle.uploads.specs.declared.completing.UploadFault.TheVariants.{Store as by_store};

use crate::removing::abandon;
use names::{Oid, Size};
use store::Store;
use tables::{Completion, LastChunk, StoreFault, UploadId};

/// The result of completing an upload.
#[derive(Clone, Copy, Debug, PartialEq, Eq)]
pub enum Kept {
    /// The upload is an object of its repository now.
    New,
    /// The repository already has an object of this name. The upload was removed.
    Already,
}

/// Why an upload was not completed.
#[derive(Clone, Copy, Debug, PartialEq, Eq, thiserror::Error)]
pub enum UploadFault {
    /// The name or the size of the bytes differs from that with which the upload was begun. It is still staged.
    #[error("the bytes differ from the name or the size of the upload")]
    Differs,
    /// The store refused, or memory ran out. The objects of the store are unchanged, but a stop may still leave the
    /// object, if its bytes do not differ.
    #[error("{0}")]
    Store(StoreFault),
}

impl From<StoreFault> for UploadFault {
    ghost from_gives = { λ refused fault. fault ≡ by_store refused };

    fn from(fault: StoreFault) -> UploadFault {
        UploadFault::Store(fault)
    }
}

/// Makes a staged upload an object of its repository, if its bytes have the name and the size with which it was begun.
/// Its last chunk is added in the same transaction. `oid` and `size` are the name and the size of all bytes that
/// arrived: those of the chunks that it has, and of the last one.
///
/// # Errors
///
/// `Differs` for another name or size, and `Store` of `Refused`, also if no upload is staged under this id, or of
/// `Memory`. Both leave the objects of the store unchanged, and the upload may still be staged.
pub fn complete<S: Store>(
    store: &mut S,
    id: UploadId,
    last: &LastChunk,
    oid: &Oid,
    size: Size,
) -> Result<Kept, UploadFault>
    ensures { From S.State store.old store.new (λ world.
        (upload : Staged) → Arrives S.State store.old id upload last.now oid.now size
        → Completes S.State world id upload store.old store.new result) }
{
    match store.complete_upload(id, last, oid, size)? {
        Completion::New => Ok(Kept::New),
        Completion::Already => {
            abandon(store, id)?;
            Ok(Kept::Already)
        }
        Completion::Differs => Err(UploadFault::Differs),
    }
}
