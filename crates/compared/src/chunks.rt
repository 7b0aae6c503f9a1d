//! Whether two stores have the same chunks.

ghost use Rattle.std.specs.Prelude.{◌≡◌, map, option_map, IfOk};
ghost use Rattle.std.specs.Bool.{Decides};
ghost use Rattle.std.specs.List.{AllByRecursion};
ghost use Rattle.tables.specs.Rows.{Tables};
ghost use Rattle.store.specs.Content.{content_bytes};
ghost use Rattle.store.specs.Shown.{HasTables, IsHonest};
ghost use Rattle.compared.specs.Comparing.{Compares, ReadsBoth, ShowsIfOpen};
ghost use Rattle.compared.specs.Keys.{HasSameBytes};
ghost use Rattle.tables.specs.Listing.{read_key};
ghost use Rattle.compared.specs.Same.{HaveSameChunks};

use crate::keys::{all_keys, rise, settled_keys};
use crate::rows::are_same;
use std::alloc::Global;
use store::{ChunkContent, Listed, Store};
use tables::{ChunkKey, StoreFault};

/// Whether both have the same bytes, or neither has any.
fn has_same_bytes(old: &Option<ChunkContent>, new: &Option<ChunkContent>) -> bool
    ensures { Decides result (option_map content_bytes new.now ≡ option_map content_bytes old.now) }
{
    match (old, new) {
        (Some(old), Some(new)) => old.bytes() == new.bytes(),
        (None, None) => true,
        _ => false,
    }
}

/// Whether the chunks with these keys have the same bytes in both stores. One chunk of each is in memory at a time.
///
/// # Errors
///
/// `Refused` or `Memory`. The tables of both are unchanged in any case.
fn have_same_bytes<A: Store, B: Store>(
    old: &mut A,
    new: &mut B,
    keys: &[ChunkKey],
) -> Result<bool, StoreFault>
    ensures both { ReadsBoth A.State B.State old.old old.new new.old new.new }
    ensures same { IfOk result (λ same. IsHonest A.State old.new → IsHonest B.State new.new
        → HasTables A.State old.old → HasTables B.State new.old
        → (t u : Tables) → ShowsIfOpen A.State old.old t → ShowsIfOpen B.State new.old u
        → Decides same (AllByRecursion (HasSameBytes t u) (map read_key keys.now))) }
{
    for key in keys {
        let ours = old.chunk(key.upload, key.n)?;
        let theirs = new.chunk(key.upload, key.n)?;
        if !has_same_bytes(&ours, &theirs) {
            return Ok(false);
        }
    }
    Ok(true)
}

/// Whether the chunks of the second store are those of the first, but for those of staged uploads.
///
/// # Errors
///
/// `Refused` or `Memory`. The tables of both are unchanged in any case.
pub(crate) fn have_same_chunks<A: Listed, B: Listed>(
    alloc: Global,
    old: &mut A,
    new: &mut B,
) -> Result<bool, StoreFault>
    ensures { Compares A.State B.State old.old old.new new.old new.new result HaveSameChunks }
{
    let ours = settled_keys(alloc, old)?;
    let theirs = all_keys(alloc, new)?;
    if !rise(&ours) {
        return Ok(false);
    }
    if !are_same(&ours, &theirs) {
        return Ok(false);
    }
    have_same_bytes(old, new, &ours)
}
