//! Pieces of contents that are read from the file.

ghost use Rattle.std.specs.Prelude.{◌≡◌, List, ℕ, option_map, IsTrue, IfOk};
ghost use Rattle.tables.specs.declared.fault.StoreFault.TheVariants.{Refused};
ghost use Rattle.store.specs.declared.read_fault.ReadFault.TheVariants.{Store as by_store};
ghost use Rattle.contents.specs.Files.{HasContent, IsSameFile};
ghost use Rattle.placed.specs.Reading.{piece_of};

use contents::{Region, read};
use sqlite_disk::Disk;
use std::alloc::Global;
use store::ReadFault;
use tables::StoreFault;

/// How many bytes a piece has; the last one of a content may have fewer.
pub(crate) const PIECE: u64 = 65_536;

/// Why a read of the file failed: it lost the bytes if it answers another call. After a stop of the machine it answers
/// none.
pub(crate) fn fault_of_read<D: Disk>(disk: &mut D) -> ReadFault
    ensures frozen { IsTrue (D.Disk.is_frozen disk.old) → result ≡ by_store Refused }
    ensures same { IsSameFile D.Disk disk.old disk.new }
{
    if disk.may_be_used() && disk.len().is_ok() {
        ReadFault::Unreadable
    } else {
        ReadFault::Store(StoreFault::Refused)
    }
}

/// Returns piece `n` of the content in a region; `None` if the content ends before it.
///
/// # Errors
///
/// `Unreadable` if the file fails to return the bytes, also if it ends before them, but answers otherwise; `Refused` or
/// `Memory`. Nothing changes.
pub(crate) fn read_piece<D: Disk>(
    alloc: Global,
    disk: &mut D,
    region: Region,
    n: u32,
) -> Result<Option<Vec<u8>>, ReadFault>
    ensures read { IfOk result (λ found. IsTrue (D.Disk.is_clean disk.new) → (content : List ℕ)
        → HasContent (D.Disk.seen disk.old) region content
        → option_map (λ v. v.items) found ≡ piece_of n content) }
    ensures same { IsSameFile D.Disk disk.old disk.new }
{
    let at = u64::from(n) * PIECE;
    if at >= region.size {
        return Ok(None);
    }
    let len = (region.size - at).min(PIECE) as usize;
    let mut bytes = Vec::new(alloc);
    bytes.resize(len, 0)?;
    match read(disk, region, at, &mut bytes) {
        Ok(()) => Ok(Some(bytes)),
        Err(_) => Err(fault_of_read(disk)),
    }
}
