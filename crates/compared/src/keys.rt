//! The keys of chunks, in the order of uploads and numbers.

ghost use Rattle.std.specs.Prelude.{◌≡◌, map, IsPermutation, IsSorted};
ghost use Rattle.std.specs.Bool.{Decides};
ghost use Rattle.std.specs.List.{list_any};
ghost use Rattle.std.specs.Ordering.{int_eq, is_lt};
ghost use Rattle.tables.specs.Staging.{read_upload};
ghost use Rattle.store.specs.Normal.{settled};
ghost use Rattle.store.specs.Shown.{Reads};
ghost use Rattle.tables.specs.Listing.{read_key};
ghost use Rattle.compared.specs.Keys.{AreKeysInOrder, KeysRise, key_cmp};

use std::alloc::Global;
use store::Listed;
use tables::{ChunkKey, StoreFault, UploadRow};

/// Whether the chunk is of one of these uploads.
fn is_of_any(key: &ChunkKey, uploads: &[UploadRow]) -> bool
    ensures { result ≡ list_any (λ u. int_eq (read_upload u).id (read_key key.now).upload) uploads.now }
{
    uploads
        .iter()
        .any(|upload| upload.id.number() == key.upload.number())
}

/// Puts the keys into the order of uploads and numbers.
fn sort(keys: &mut Vec<ChunkKey>)
    ensures all { IsPermutation keys.old.items keys.new.items }
    ensures ordered { IsSorted key_cmp (map read_key keys.new.items) }
{
    keys.sort_unstable_by_key(|key| (key.upload.number(), key.n));
}

/// Whether the first key comes before the second.
fn is_before(a: &ChunkKey, b: &ChunkKey) -> bool
    ensures { result ≡ is_lt (key_cmp (read_key a.now) (read_key b.now)) }
{
    (a.upload.number(), a.n) < (b.upload.number(), b.n)
}

/// Whether the keys rise, so that none occurs twice.
pub(crate) fn rise(keys: &[ChunkKey]) -> bool
    ensures { Decides result (KeysRise (map read_key keys.now)) }
{
    keys.is_sorted_by(|a, b| is_before(a, b))
}

/// Returns the keys of all chunks.
///
/// # Errors
///
/// `Refused` or `Memory`. The tables are unchanged in any case.
pub(crate) fn all_keys<S: Listed>(alloc: Global, store: &mut S) -> Result<Vec<ChunkKey>, StoreFault>
    ensures { Reads S.State store.old store.new result
        (λ t keys. AreKeysInOrder keys.items t.chunks) }
{
    let mut keys = store.chunk_keys(alloc)?;
    sort(&mut keys);
    Ok(keys)
}

/// Returns the keys of all chunks but those of staged uploads.
///
/// # Errors
///
/// `Refused` or `Memory`. The tables are unchanged in any case.
pub(crate) fn settled_keys<S: Listed>(
    alloc: Global,
    store: &mut S,
) -> Result<Vec<ChunkKey>, StoreFault>
    ensures { Reads S.State store.old store.new result
        (λ t keys. AreKeysInOrder keys.items (settled t).chunks) }
{
    let staged = store.staged_uploads(alloc)?;
    let mut keys = store.chunk_keys(alloc)?;
    keys.retain(|key| !is_of_any(key, &staged));
    sort(&mut keys);
    Ok(keys)
}
