//! What is asked of the file: bytes of a region are read and written, and what was written is synced.

ghost use Rattle.std.specs.Prelude.{◌≡◌, ◌≤◌, ◌<◌, ◌+◌, length, take, drop, List, ℕ, SomeIff, is_ok, IsTrue, IfErr, OnOk, ⊤};
ghost use Rattle.sqlite_disk.specs.Disk.{Only};
ghost use Rattle.contents.specs.Regions.{IsInside, IsLastEnd};
ghost use Rattle.contents.specs.InUse.{regions_of};
ghost use Rattle.contents.specs.Files.{HasAt, KeepsOthers, KeepsContents, HasContent, KeepsRegions, IsSameFile, IsChangedBy, ReachesTo, FailsFor};

use crate::fault::ContentsFault;
use crate::region::Region;
use crate::regions::Regions;
use sqlite_disk::Disk;

/// Returns the offset in the file of the byte `at` of a region, if the `len` bytes from there on are among its first
/// `limit`.
fn offset_in(region: Region, limit: u64, at: u64, len: usize) -> Option<usize>
    ensures { SomeIff result (IsInside region limit at len) (region.start + at) }
{
    let offset = region.start.checked_add(at)?;
    offset.checked_add(len as u64)?;
    if at > limit || limit - at < len as u64 {
        return None;
    }
    Some(offset as usize)
}

/// Reads bytes of a region from its byte `at` on, of which only the first `limit` may be asked.
pub(crate) fn read_below<D: Disk>(
    disk: &mut D,
    region: Region,
    limit: u64,
    at: u64,
    buf: &mut [u8],
) -> Result<(), ContentsFault>
    ensures inside { OnOk result (IsInside region limit at (length buf.old)) }
    ensures read { OnOk result (IsTrue (D.Disk.is_clean disk.new)
        → HasAt (D.Disk.seen disk.old) (region.start + at) buf.new) }
    ensures len { length buf.new ≡ length buf.old }
    ensures same { IsSameFile D.Disk disk.old disk.new }
    ensures usable { IsTrue (D.Disk.is_usable disk.old) → IsTrue (D.Disk.is_usable disk.new) }
    ensures err { IfErr result (λ fault. FailsFor D.Disk fault
        (IsInside region limit at (length buf.old)) ⊤
        (ReachesTo D.Disk (region.start + at + length buf.old) disk.old)
        disk.old disk.new) }
{
    let Some(offset) = offset_in(region, limit, at, buf.len()) else {
        return Err(ContentsFault::Outside);
    };
    if !disk.may_be_used() {
        return Err(ContentsFault::Unusable);
    }
    disk.read_at(offset, buf)?;
    Ok(())
}

/// Writes bytes into a region from its byte `at` on.
pub(crate) fn write<D: Disk>(
    disk: &mut D,
    region: Region,
    at: u64,
    bytes: &[u8],
) -> Result<(), ContentsFault>
    ensures inside { OnOk result (IsInside region region.size at (length bytes.now)) }
    ensures written { OnOk result (HasAt (D.Disk.seen disk.new) (region.start + at) bytes.now) }
    ensures others { IsChangedBy D.Disk
        (KeepsOthers (region.start + at) (length bytes.now)) disk.old disk.new }
    ensures contents { IsChangedBy D.Disk (KeepsContents region) disk.old disk.new }
    ensures err { IfErr result (λ fault. FailsFor D.Disk fault
        (IsInside region region.size at (length bytes.now)) ⊤ ⊤ disk.old disk.new) }
{
    let Some(offset) = offset_in(region, region.size, at, bytes.len()) else {
        return Err(ContentsFault::Outside);
    };
    if !disk.may_be_used() {
        return Err(ContentsFault::Unusable);
    }
    disk.write_at(offset, bytes)?;
    Ok(())
}

/// Syncs the file: after that a stop leaves it as it is.
///
/// Fails if the file may not be used any more, or if the sync fails: then it may not be used any more. The bytes that
/// are read stay, and a stop leaves nothing that it did not leave before.
pub fn sync<D: Disk>(disk: &mut D) -> Result<(), ContentsFault>
    ensures durable { OnOk result (Only (D.Disk.seen disk.new) (D.Disk.may_leave disk.new)) }
    ensures same { IsSameFile D.Disk disk.old disk.new }
    ensures usable { D.Disk.is_usable disk.new ≡ is_ok result }
    ensures counted { OnOk result (D.Disk.faults disk.new ≡ D.Disk.faults disk.old) }
    ensures err { IfErr result (λ fault. FailsFor D.Disk fault ⊤ ⊤ ⊤ disk.old disk.new) }
{
    if !disk.may_be_used() {
        return Err(ContentsFault::Unusable);
    }
    disk.sync()?;
    Ok(())
}

/// Reads bytes of a content that is kept in a region, from its byte `at` on.
///
/// Fails with [`ContentsFault::Outside`] exactly if they are not all inside the region, with
/// [`ContentsFault::Unusable`] after a failed sync, and with [`ContentsFault::Failed`] if the file fails, as for bytes
/// past its end. Nothing changes.
pub fn read<D: Disk>(
    disk: &mut D,
    region: Region,
    at: u64,
    buf: &mut [u8],
) -> Result<(), ContentsFault>
    ensures inside { OnOk result (IsInside region region.size at (length buf.old)) }
    ensures read { OnOk result (IsTrue (D.Disk.is_clean disk.new)
        → HasAt (D.Disk.seen disk.old) (region.start + at) buf.new) }
    ensures content { OnOk result (IsTrue (D.Disk.is_clean disk.new) → (content : List ℕ)
        → HasContent (D.Disk.seen disk.old) region content
        → buf.new ≡ take (length buf.old) (drop at content)) }
    ensures same { IsSameFile D.Disk disk.old disk.new }
    ensures usable { IsTrue (D.Disk.is_usable disk.old) → IsTrue (D.Disk.is_usable disk.new) }
    ensures err { IfErr result (λ fault. FailsFor D.Disk fault
        (IsInside region region.size at (length buf.old)) ⊤
        (ReachesTo D.Disk (region.start + at + length buf.old) disk.old)
        disk.old disk.new) }
{
    read_below(disk, region, region.size, at, buf)
}

/// Cuts the file after the last region that is in use, or makes it as long as that.
///
/// Fails with [`ContentsFault::Unusable`] after a failed sync, and with [`ContentsFault::Failed`] if the file fails.
/// All bytes in the regions stay, also after an error, and in whatever a stop leaves of the file.
pub fn trim<D: Disk>(disk: &mut D, regions: &Regions) -> Result<(), ContentsFault>
    ensures len { OnOk result (IsLastEnd (regions_of regions.now) (length (D.Disk.seen disk.new))) }
    ensures kept { IsChangedBy D.Disk (KeepsRegions (regions_of regions.now)) disk.old disk.new }
    ensures err { IfErr result (λ fault. FailsFor D.Disk fault ⊤ ⊤ ⊤ disk.old disk.new) }
{
    if !disk.may_be_used() {
        return Err(ContentsFault::Unusable);
    }
    disk.set_len(regions.end() as usize)?;
    Ok(())
}
