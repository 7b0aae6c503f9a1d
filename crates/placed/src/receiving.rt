//! Contents that are being received.

ghost use Rattle.std.specs.Prelude.{◌≡◌, ◌≤◌, ◌<◌, ◌+◌, ◌*◌, ⊤, pos, is_some, false, true, length, OnOk};
ghost use Rattle.sqlite_disk.specs.Disk.{Only};
ghost use Rattle.contents.specs.Files.{IsSameFile};
ghost use Rattle.tables.specs.Statements.{with_chunk};
ghost use Rattle.tables.specs.Staging.{upload_number, asked_chunk, staged_with, without_staged_from};
ghost use Rattle.store.specs.Normal.{normal};
ghost use Rattle.store.specs.Shown.{Reads, PutsOr};
ghost use Rattle.placed.specs.Placed.{beside, staged_of};
ghost use Rattle.placed.specs.Pieces.{piece_size, left_unsynced};
ghost use Rattle.placed.specs.Seeking.{IsRegionOf, IsTruncated, written_region};

use crate::place::{PLACE_NUMBER, region_in};
use crate::placed::Placed;
use crate::reading::PIECE;
use crate::staged::{Staged, index_of};
use contents::{Region, sync};
use sqlite_disk::Disk;
use store::Store;
use tables::{StoreFault, UploadId};

/// How many bytes may be written to the file between two syncs, so that the sync of a content that is completed is
/// short: 8 MiB.
const MOST_UNSYNCED: u64 = 8_388_608;

impl Staged {
    /// The part of its region that is written.
    fn written(&self) -> Region
        ensures { result ≡ written_region self.now }
    {
        Region {
            start: self.draft.region().start,
            size: self.draft.written(),
        }
    }

    /// Whether these bytes may be its next piece.
    fn takes(&self, n: u32, bytes: &[u8]) -> bool
        ensures { result ≡ true → (self.now.is_sealed ≡ false) × (length bytes.now ≡ piece_size)
            × (self.now.draft.written ≡ n * piece_size) }
    {
        !self.is_sealed
            && bytes.len() as u64 == PIECE
            && self.draft.written() == u64::from(n) * PIECE
    }
}

impl<T: Store, D: Disk> Placed<T, D> {
    /// The region of the content of an upload, as far as it is written; `None` if none of it is in the file.
    pub(crate) fn region_of(&mut self, upload: UploadId) -> Result<Option<Region>, StoreFault>
        ensures rest { self.new ≡ record self.old { rows = self.new.rows } }
        ensures reads { Reads T.State self.old.rows self.new.rows result
            (λ t found. IsRegionOf (upload_number upload) (staged_of self.old) t found) }
    {
        let place = self.rows.chunk(upload, PLACE_NUMBER)?;
        match (place, index_of(&self.staged, upload)) {
            (Some(place), None) => match region_in(place.bytes()) {
                Some(region) => Ok(Some(region)),
                None => Err(StoreFault::Refused),
            },
            (Some(_), Some(_)) => Err(StoreFault::Refused),
            (None, Some(index)) => Ok(Some(self.staged[index].written())),
            (None, None) => Ok(None),
        }
    }

    /// Writes a full piece of a content that is being received, which follows those that are written.
    pub(crate) fn add_piece(
        &mut self,
        upload: UploadId,
        n: u32,
        bytes: &[u8],
    ) -> Result<(), StoreFault>
        ensures puts { PutsOr (beside T.State D.Disk) self.old self.new result
            (λ t. normal (with_chunk (asked_chunk (upload_number upload) n bytes.now) t))
            (λ _ _. ⊤) }
        ensures counted { OnOk result
            (self.new.unsynced ≡ left_unsynced MOST_UNSYNCED self.old.unsynced + piece_size) }
    {
        if self.rows.chunk(upload, n)?.is_some() {
            return Err(StoreFault::Refused);
        }
        let Some(index) = index_of(&self.staged, upload) else {
            return Err(StoreFault::Refused);
        };
        if !self.staged[index].takes(n, bytes) {
            return Err(StoreFault::Refused);
        }
        sync_if_due(&mut self.disk, &mut self.unsynced)?;
        self.unsynced += PIECE;
        match self.staged[index].draft.append(&mut self.disk, bytes) {
            Ok(()) => Ok(()),
            Err(_) => Err(StoreFault::Refused),
        }
    }

    /// Removes the pieces of an upload from this number on, if it is staged, and returns whether it is.
    pub(crate) fn shorten(&mut self, id: UploadId, n: u32) -> Result<bool, StoreFault>
        ensures { PutsOr (beside T.State D.Disk) self.old self.new result
            (without_staged_from (upload_number id) (pos n))
            (λ t staged. staged ≡ is_some (staged_with (upload_number id) t)) }
    {
        if self.rows.chunk(id, PLACE_NUMBER)?.is_some() {
            return Err(StoreFault::Refused);
        }
        let staged = self.rows.shorten_upload(id, n)?;
        if staged {
            truncate(&mut self.staged, id, u64::from(n) * PIECE);
        }
        Ok(staged)
    }
}

/// Syncs the file if as many bytes as may be unsynced were written since the last sync.
///
/// # Errors
///
/// `Refused` if the sync fails: no bytes are changed, and nothing more may be asked of the file.
fn sync_if_due<D: Disk>(disk: &mut D, unsynced: &mut u64) -> Result<(), StoreFault>
    ensures few { OnOk result (unsynced.new < MOST_UNSYNCED) }
    ensures counted { OnOk result (unsynced.new ≡ left_unsynced MOST_UNSYNCED unsynced.old) }
    ensures synced { OnOk result (MOST_UNSYNCED ≤ unsynced.old
        → Only (D.Disk.seen disk.new) (D.Disk.may_leave disk.new)) }
    ensures same { IsSameFile D.Disk disk.old disk.new }
{
    if *unsynced < MOST_UNSYNCED {
        return Ok(());
    }
    match sync(disk) {
        Ok(()) => {
            *unsynced = 0;
            Ok(())
        }
        Err(_) => Err(StoreFault::Refused),
    }
}

/// Forgets all bytes of the content of an upload after the first `len`.
fn truncate(staged: &mut Vec<Staged>, id: UploadId, len: u64)
    ensures { IsTruncated (upload_number id) len staged.old.items staged.new.items }
{
    if let Some(index) = index_of(staged, id) {
        staged[index].draft.truncate(len);
    }
}
