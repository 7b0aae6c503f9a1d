//! All rows of each table, of a database with a file of contents.

ghost use Rattle.std.specs.Prelude.{◌≡◌, ◌++◌, map, OnOk};
ghost use Rattle.std.specs.List.{flat_map};
ghost use Rattle.tables.specs.Listing.{read_key};
ghost use Rattle.tables.specs.Staging.{read_numbered, upload_number};
ghost use Rattle.placed.specs.Keys.{keys_at, piece_keys, received_keys};

use crate::place::{PLACE_NUMBER, region_in};
use crate::placed::Placed;
use crate::reading::PIECE;
use crate::staged::Staged;
use sqlite_disk::Disk;
use std::alloc::{AllocError, Global};
use store::{Listed, Numbered};
use tables::{
    ChunkKey, MarkedUpload, NumberedChunk, RepoLock, RepoRow, RetiredRow, StoreFault, TokenRow,
    UploadId,
};

/// Adds the keys of the pieces of a content of this size.
fn push_pieces(keys: &mut Vec<ChunkKey>, upload: UploadId, size: u64) -> Result<(), StoreFault>
    ensures { OnOk result (map read_key keys.new.items
        ≡ map read_key keys.old.items ++ piece_keys (upload_number upload) size) }
{
    let Ok(count) = u32::try_from(size.div_ceil(PIECE)) else {
        return Err(StoreFault::Refused);
    };
    for n in 0..count {
        keys.push(ChunkKey { upload, n }).map_err(AllocError::from)?;
    }
    Ok(())
}

/// Adds the keys of the pieces of the contents at these places.
fn push_places(keys: &mut Vec<ChunkKey>, places: &[NumberedChunk]) -> Result<(), StoreFault>
    ensures { OnOk result (map read_key keys.new.items
        ≡ map read_key keys.old.items ++ flat_map keys_at (map read_numbered places.now)) }
{
    for place in places {
        if let Some(region) = region_in(&place.bytes) {
            push_pieces(keys, place.upload, region.size)?;
        }
    }
    Ok(())
}

/// Adds the keys of the pieces of the contents that are being received.
fn push_received(keys: &mut Vec<ChunkKey>, staged: &[Staged]) -> Result<(), StoreFault>
    ensures { OnOk result (map read_key keys.new.items
        ≡ map read_key keys.old.items ++ flat_map received_keys staged.now) }
{
    for content in staged {
        push_pieces(keys, content.id, content.draft.written())?;
    }
    Ok(())
}

impl<T: Listed + Numbered, D: Disk> Listed for Placed<T, D> {
    fn all_repos(&mut self, alloc: Global) -> Result<Vec<RepoRow>, StoreFault> {
        self.rows.all_repos(alloc)
    }

    fn all_locks(&mut self, alloc: Global) -> Result<Vec<RepoLock>, StoreFault> {
        self.rows.all_locks(alloc)
    }

    fn all_tokens(&mut self, alloc: Global) -> Result<Vec<TokenRow>, StoreFault> {
        self.rows.all_tokens(alloc)
    }

    fn all_retired(&mut self, alloc: Global) -> Result<Vec<RetiredRow>, StoreFault> {
        self.rows.all_retired(alloc)
    }

    fn all_uploads(&mut self, alloc: Global) -> Result<Vec<MarkedUpload>, StoreFault> {
        self.rows.all_uploads(alloc)
    }

    fn chunk_keys(&mut self, alloc: Global) -> Result<Vec<ChunkKey>, StoreFault> {
        let mut keys = self.rows.chunk_keys(alloc)?;
        keys.retain(|key| key.n != PLACE_NUMBER);
        let places = self.rows.chunks_numbered(alloc, PLACE_NUMBER)?;
        push_places(&mut keys, &places)?;
        push_received(&mut keys, &self.staged)?;
        Ok(keys)
    }
}
