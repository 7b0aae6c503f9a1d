//! Uploads that are completed.

ghost use Rattle.std.specs.Prelude.{◌≡◌, ◌≤◌, ◌<◌, ◌+◌, ◌*◌, ◌++◌, ℕ, List, length, pos, Some, IfOk, OnOk, HoldsAt};
ghost use Rattle.contents.specs.Drafts.{HasWritten};
ghost use Rattle.contents.specs.Files.{HasContent, KeepsOthers, KeepsContents};
ghost use Rattle.tables.specs.Staging.{upload_number, completion_of, after_complete};
ghost use Rattle.store.specs.Normal.{normal};
ghost use Rattle.store.specs.Shown.{Changes};
ghost use Rattle.placed.specs.Altered.{IsAlteredBy};
ghost use Rattle.placed.specs.Pieces.{piece_size};
ghost use Rattle.placed.specs.Placed.{beside, staged_of};
ghost use Rattle.placed.specs.Seeking.{AreOfOthers};

use crate::place::{PLACE_NUMBER, place_of};
use crate::placed::Placed;
use crate::reading::PIECE;
use crate::staged::{forget, index_of};
use contents::{Draft, Region};
use names::{Oid, Size};
use sqlite_disk::Disk;
use store::Store;
use tables::{Completion, LastChunk, StoreFault, UploadId};

impl<T: Store, D: Disk> Placed<T, D> {
    /// Completes an upload: its content is in the file and synced before its place is in the database.
    pub(crate) fn complete(
        &mut self,
        id: UploadId,
        last: &LastChunk,
        oid: &Oid,
        size: Size,
    ) -> Result<Completion, StoreFault>
        ensures { Changes (beside T.State D.Disk) self.old self.new result
            (λ t. normal (after_complete (upload_number id) last.now oid.now (pos size) t))
            (λ t completion. completion_of (upload_number id) oid.now (pos size) t
            ≡ Some completion) }
    {
        match index_of(&self.staged, id) {
            Some(index) => self.complete_content(index, id, last, oid, size),
            None => self.complete_row(id, last, oid, size),
        }
    }

    /// Completes an upload whose content is a row of the database.
    fn complete_row(
        &mut self,
        id: UploadId,
        last: &LastChunk,
        oid: &Oid,
        size: Size,
    ) -> Result<Completion, StoreFault>
        requires { AreOfOthers (upload_number id) (staged_of self.old) }
        ensures { Changes (beside T.State D.Disk) self.old self.new result
            (λ t. normal (after_complete (upload_number id) last.now oid.now (pos size) t))
            (λ t completion. completion_of (upload_number id) oid.now (pos size) t
            ≡ Some completion) }
    {
        if last.n == PLACE_NUMBER || self.rows.chunk(id, PLACE_NUMBER)?.is_some() {
            return Err(StoreFault::Refused);
        }
        self.rows.complete_upload(id, last, oid, size)
    }

    /// Completes an upload whose content is in the file.
    fn complete_content(
        &mut self,
        index: usize,
        id: UploadId,
        last: &LastChunk,
        oid: &Oid,
        size: Size,
    ) -> Result<Completion, StoreFault>
        requires { (index < length (staged_of self.old))
            × HoldsAt (λ s. s.id ≡ id) (staged_of self.old) index }
        ensures { Changes (beside T.State D.Disk) self.old self.new result
            (λ t. normal (after_complete (upload_number id) last.now oid.now (pos size) t))
            (λ t completion. completion_of (upload_number id) oid.now (pos size) t
            ≡ Some completion) }
    {
        let content = self.staged[index];
        if content.is_sealed || self.rows.chunk(id, PLACE_NUMBER)?.is_some() {
            return Err(StoreFault::Refused);
        }
        // Part of the last piece may be written, even if the call fails.
        self.unsynced = self.unsynced.saturating_add(PIECE);
        let region = write_last(&mut self.disk, content.draft, last)?;
        self.unsynced = 0;
        let place = LastChunk {
            n: PLACE_NUMBER,
            bytes: place_of(self.alloc, region)?,
        };
        match self.rows.complete_upload(id, &place, oid, size) {
            Ok(Completion::New) => {
                forget(&mut self.staged, id);
                Ok(Completion::New)
            }
            Ok(Completion::Already) => Ok(Completion::Already),
            Ok(Completion::Differs) => Ok(Completion::Differs),
            Err(fault) => {
                self.staged[index].is_sealed = true;
                Err(fault)
            }
        }
    }
}

/// Writes the last piece of a content, and syncs the file. Returns the region, which has the content from then on.
///
/// # Errors
///
/// `Refused`, also if the piece is not the last one of the content. What was written of it is still there.
fn write_last<D: Disk>(
    disk: &mut D,
    mut draft: Draft,
    last: &LastChunk,
) -> Result<Region, StoreFault>
    ensures region { IfOk result (λ region. region ≡ draft.region) }
    ensures number { OnOk result (draft.written ≡ last.now.n * piece_size) }
    ensures size { OnOk result (length last.now.bytes.items ≤ piece_size) }
    ensures content { OnOk result ((bytes : List ℕ)
        → HasWritten (D.Disk.seen disk.old) draft bytes
        → HasContent (D.Disk.seen disk.new) draft.region (bytes ++ last.now.bytes.items)) }
    ensures stop { OnOk result ((bytes : List ℕ) → HasWritten (D.Disk.seen disk.old) draft bytes
        → (left : List ℕ) → D.Disk.may_leave disk.new left
        → HasContent left draft.region (bytes ++ last.now.bytes.items)) }
    ensures others { IsAlteredBy D.Disk (KeepsOthers (draft.region.start + draft.written)
        (length last.now.bytes.items)) disk.old disk.new }
    ensures contents { IsAlteredBy D.Disk (KeepsContents draft.region) disk.old disk.new }
{
    if draft.written() != u64::from(last.n) * PIECE || last.bytes.len() as u64 > PIECE {
        return Err(StoreFault::Refused);
    }
    match draft.append(disk, &last.bytes) {
        Ok(()) => {}
        Err(_) => return Err(StoreFault::Refused),
    }
    match draft.finish(disk) {
        Ok(region) => Ok(region),
        Err(_) => Err(StoreFault::Refused),
    }
}
