//! The contents that are being received.

ghost use Rattle.std.specs.Prelude.{◌≡◌, ◌<◌, ◌≤◌, ◌++◌, ◌∷◌, [], length, IfSome, IfNone, HoldsAt, All, ◌≢◌};
ghost use Rattle.std.specs.Vec.{vec_len, vec_capacity};
ghost use Rattle.tables.specs.Staging.{upload_number};
ghost use Rattle.placed.specs.View.{others_of};

use contents::Draft;
use tables::UploadId;

/// The content of a staged upload, which is being received.
#[derive(Clone, Copy, Debug)]
pub(crate) struct Staged {
    /// The upload.
    pub(crate) id: UploadId,
    /// What is written of its content.
    pub(crate) draft: Draft,
    /// Nothing more may be written, since a stop may leave a row that says that the content is there.
    pub(crate) is_sealed: bool,
}

/// The index of the content of this upload.
pub(crate) fn index_of(staged: &[Staged], id: UploadId) -> Option<usize>
    ensures some { IfSome result (λ index. (index < length staged.now)
        × HoldsAt (λ s. s.id ≡ id) staged.now index) }
    ensures none { IfNone result (All (λ s. s.id ≢ id) staged.now) }
{
    staged.iter().position(|s| s.id == id)
}

/// Adds a content, for which there is room.
pub(crate) fn add(staged: &mut Vec<Staged>, content: Staged)
    requires { vec_len staged.old < vec_capacity staged.old }
    ensures { staged.new.items ≡ staged.old.items ++ content ∷ [] }
{
    let _ = staged.push(content);
}

/// Forgets the content of this upload.
pub(crate) fn forget(staged: &mut Vec<Staged>, id: UploadId)
    ensures items { staged.new.items ≡ others_of (upload_number id) staged.old.items }
    ensures len { vec_len staged.new ≤ vec_len staged.old }
    ensures capacity { vec_capacity staged.new ≡ vec_capacity staged.old }
{
    staged.retain(|s| s.id != id);
}
