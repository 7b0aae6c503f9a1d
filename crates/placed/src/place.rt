//! The rows that say where a content is in the file.

ghost use Rattle.std.specs.Prelude.{◌≡◌, IfOk};
ghost use Rattle.placed.specs.Places.{place_of, region_in};

use contents::Region;
use std::alloc::{AllocError, Global};

/// The number of such a row, which no piece of a content has.
pub const PLACE_NUMBER: u32 = 4_294_967_295;

/// The bytes of the row for a region.
pub fn place_of(alloc: Global, region: Region) -> Result<Vec<u8>, AllocError>
    ensures { IfOk result (λ bytes. bytes.items ≡ place_of region) }
{
    let mut bytes = Vec::with_capacity(alloc, 16)?;
    bytes.extend_from_slice(&region.start.to_be_bytes())?;
    bytes.extend_from_slice(&region.size.to_be_bytes())?;
    Ok(bytes)
}

/// The region that the bytes of a row mean.
pub fn region_in(bytes: &[u8]) -> Option<Region>
    ensures { result ≡ region_in bytes.now }
{
    if bytes.len() != 16 {
        return None;
    }
    let (start, size) = bytes.split_at(8);
    Some(Region {
        start: u64::from_be_bytes(start.try_into().ok()?),
        size: u64::from_be_bytes(size.try_into().ok()?),
    })
}
