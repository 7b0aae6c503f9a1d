//! Parts of contents that are read from the file.

ghost use Rattle.std.specs.Prelude.{◌≡◌, ◌≤◌, List, ℕ, length, take, drop, IsTrue, IfOk, IfSome};
ghost use Rattle.contents.specs.Files.{HasContent, IsSameFile};
ghost use Rattle.tables.specs.Staging.{upload_number};
ghost use Rattle.store.specs.Content.{IsPortion};
ghost use Rattle.store.specs.ReadFaults.{result_behind};
ghost use Rattle.store.specs.Shown.{Reads};
ghost use Rattle.placed.specs.Placed.{beside};

use crate::placed::Placed;
use crate::reading::fault_of_read;
use contents::{Region, read};
use sqlite_disk::Disk;
use std::alloc::Global;
use store::{ReadFault, Store};
use tables::UploadId;

/// Returns the bytes of the content in a region from the byte `at` on, at most `most` of them.
///
/// # Errors
///
/// `Unreadable` if the file fails to return the bytes, also if it ends before them, but answers otherwise; `Refused` or
/// `Memory`. Nothing changes.
fn read_portion<D: Disk>(
    alloc: Global,
    disk: &mut D,
    region: Region,
    at: u64,
    most: usize,
) -> Result<Vec<u8>, ReadFault>
    ensures read { IfOk result (λ found. IsTrue (D.Disk.is_clean disk.new) → (content : List ℕ)
        → HasContent (D.Disk.seen disk.old) region content
        → found.items ≡ take most (drop at content)) }
    ensures few { IfOk result (λ found. length found.items ≤ most) }
    ensures same { IsSameFile D.Disk disk.old disk.new }
{
    let mut bytes = Vec::new(alloc);
    if at >= region.size {
        return Ok(bytes);
    }
    let len = (region.size - at).min(most as u64) as usize;
    bytes.resize(len, 0)?;
    match read(disk, region, at, &mut bytes) {
        Ok(()) => Ok(bytes),
        Err(_) => Err(fault_of_read(disk)),
    }
}

impl<T: Store, D: Disk> Placed<T, D> {
    /// Returns bytes of the content of an upload from the byte `at` on, at most `most` of them; `None` if the content is not
    /// in the file.
    ///
    /// # Errors
    ///
    /// `Unreadable` if the file fails to return the bytes, but answers otherwise; `Refused` or `Memory`. The tables are
    /// unchanged in any case.
    pub(crate) fn portion(
        &mut self,
        alloc: Global,
        upload: UploadId,
        at: u64,
        most: usize,
    ) -> Result<Option<Vec<u8>>, ReadFault>
        ensures reads { Reads (beside T.State D.Disk) self.old self.new (result_behind result)
            (λ t found. IfSome found (λ bytes. IsPortion (upload_number upload) at bytes.items t)) }
        ensures few { IfOk result (λ found. IfSome found (λ bytes. length bytes.items ≤ most)) }
    {
        let Some(region) = self.region_of(upload)? else {
            return Ok(None);
        };
        let bytes = read_portion(alloc, &mut self.disk, region, at, most)?;
        Ok(Some(bytes))
    }
}
