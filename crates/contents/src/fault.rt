//! Why a call on a file of contents failed.

ghost use Rattle.std.specs.Prelude.{◌≡◌};
ghost use Rattle.contents.specs.declared.fault.ContentsFault.TheVariants.{Failed};

use std::io;
use thiserror::Error;

/// Why a call on a file of contents failed.
#[derive(Debug, Drop, Error)]
pub enum ContentsFault {
    /// The bytes are not all inside the region, or not all written yet. The file was not asked.
    #[error("these bytes are not all inside the content")]
    Outside,
    /// Not all bytes of the content are written. The file was not asked.
    #[error("not all bytes of the content are written")]
    Unfinished,
    /// A sync failed before, so nothing more may be asked of the file.
    #[error("a sync of the file of contents has failed before")]
    Unusable,
    /// The file failed.
    #[error("the file of contents failed: {0}")]
    Failed(io::Error),
}

impl From<io::Error> for ContentsFault {
    ghost from_gives = { λ error fault. fault ≡ Failed error };

    fn from(error: io::Error) -> ContentsFault {
        ContentsFault::Failed(error)
    }
}
