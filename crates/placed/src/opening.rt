//! Stores over a database that names places in the file are opened.

ghost use Rattle.std.specs.Prelude.{◌≡◌, ◌≢◌, ◌≤◌, length, map, filter, [], All, IsTrue, MatchBool, IfOk, IfErr, IfSome, IfNone, OnOk, OnErr};
ghost use Rattle.std.specs.List.Sorted.{IsPermutation};
ghost use Rattle.sqlite_trees.specs.Tree.{IsAscending};
ghost use Rattle.contents.specs.Regions.{end_of};
ghost use Rattle.contents.specs.InUse.{regions_of};
ghost use Rattle.contents.specs.Files.{IsSameFile};
ghost use Rattle.contents.specs.declared.region.Region.{Region};
ghost use Rattle.tables.specs.Rows.{Tables};
ghost use Rattle.tables.specs.Staging.{upload_number};
ghost use Rattle.store.specs.Shown.{IsHonest, IsOpen, IsSafe, IsDurable, HasTables, Leaves, Moves, Reads, AddsNothing, shown};
ghost use Rattle.placed.specs.Kept.{AreSeparate, places_in};
ghost use Rattle.placed.specs.Opening.{AreGood, AreNamed, AreTaken, ClearsSome, HasClosed, IsCutFrom, IsDurableIfOpen, IsNamed, IsOfPlaces, IsRegion, LeavesCleared, RefusesPlaces, ShowsCleared, chunked_ids, cleared, has_key};
ghost use Rattle.placed.specs.Placed.{beside};
ghost use Rattle.placed.specs.View.{view};

use crate::fault::PlaceFault;
use crate::place::{PLACE_NUMBER, region_in};
use crate::placed::Placed;
use contents::{ContentsFault, LARGEST_END, Region, Regions, sync, trim};
use sqlite_disk::Disk;
use std::alloc::{AllocError, Global};
use store::{Listed, Numbered};
use tables::{ChunkKey, NumberedChunk, StoreFault, UploadId, UploadRow};

impl<T: Listed + Numbered + Drop, D: Disk + Drop> Placed<T, D> {
    /// Opens a store over a database that may name places in the file. Staged uploads whose chunks are in rows, as
    /// another program leaves them, are removed; a database without any is not written. The file is cut after the last
    /// place.
    ///
    /// # Errors
    ///
    /// `Unreadable`, `Overlapping` or `Short` if the places of the database are not those of contents in this file: the
    /// database was not written then. `Store` or `Contents` if a call failed: such staged uploads may be removed.
    /// The database and the file are closed.
    pub fn open(alloc: Global, mut rows: T, mut disk: D) -> Result<Placed<T, D>, PlaceFault>
        ensures honest { IfOk result (λ s. IsHonest (beside T.State D.Disk) s
            → IsHonest T.State rows × IsTrue (D.Disk.is_clean disk)) }
        ensures was_open { IfOk result (λ s. HasTables T.State rows
            → IsHonest (beside T.State D.Disk) s → IsOpen T.State rows) }
        ensures tables { IfOk result (λ s. HasTables T.State rows → IsDurableIfOpen T.State rows
            → HasTables (beside T.State D.Disk) s) }
        ensures shown { IfOk result (λ s. HasTables T.State rows → IsHonest (beside T.State D.Disk) s
            → IsOpen (beside T.State D.Disk) s → shown (beside T.State D.Disk) s
            ≡ view (D.Disk.seen disk) [] (cleared (shown T.State rows))) }
        ensures left { IfOk result (λ s. HasTables T.State rows → IsDurableIfOpen T.State rows
            → IsHonest (beside T.State D.Disk) s → (t : Tables) → Leaves (beside T.State D.Disk) s t
            → t ≡ view (D.Disk.seen disk) [] (cleared (shown T.State rows))) }
        ensures durable { IfOk result (λ s. HasTables T.State rows → IsDurableIfOpen T.State rows
            → IsOpen (beside T.State D.Disk) s → IsDurable (beside T.State D.Disk) s) }
        ensures safe { IfOk result (λ s. HasTables T.State rows → IsDurableIfOpen T.State rows
            → IsHonest (beside T.State D.Disk) s → IsSafe (beside T.State D.Disk) s) }
        ensures cut { IfOk result (IsCutFrom D.Disk disk) }
        ensures faults { IfErr result (λ fault. IsOfPlaces fault
            → RefusesPlaces T.State D.Disk rows disk) }
        ensures ended { OnErr result (HasClosed T.State D.Disk rows disk) }
    {
        sync(&mut disk)?;
        let regions = read_places(alloc, &mut rows, &mut disk)?;
        clear_staged(alloc, &mut rows)?;
        // A file that cannot be cut is only longer than it needs to be.
        let _ = trim(&mut disk, &regions);
        Ok(Placed {
            rows,
            disk,
            regions,
            staged: Vec::new(alloc),
            unsynced: 0,
            has_lost: false,
            alloc,
        })
    }
}

/// Removes the staged uploads whose chunks are in rows, with these. If there are none nothing is written.
///
/// # Errors
///
/// `Refused` or `Memory`. Some of them may be removed.
pub(crate) fn clear_staged<T: Listed>(alloc: Global, rows: &mut T) -> Result<(), StoreFault>
    ensures all { OnOk result (ShowsCleared T.State rows.old rows.new) }
    ensures left { OnOk result (LeavesCleared T.State rows.old rows.new) }
    ensures some { ClearsSome T.State rows.old rows.new }
{
    let chunked = chunked_uploads(alloc, rows)?;
    for id in &chunked {
        rows.remove_upload(*id)?;
    }
    Ok(())
}

/// The staged uploads whose chunks are in rows, in rising ids.
fn chunked_uploads<T: Listed>(alloc: Global, rows: &mut T) -> Result<Vec<UploadId>, StoreFault>
    ensures { Reads T.State rows.old rows.new result
        (λ t found. map upload_number found.items ≡ chunked_ids t) }
{
    let staged = rows.staged_uploads(alloc)?;
    if staged.is_empty() {
        return Ok(Vec::new(alloc));
    }
    let keys = rows.chunk_keys(alloc)?;
    Ok(ids_in(alloc, &staged, &keys)?)
}

/// Whether one of the keys is of this upload.
fn has_key(keys: &[ChunkKey], id: UploadId) -> bool
    ensures { result ≡ has_key keys.now (upload_number id) }
{
    keys.iter().any(|key| key.upload.number() == id.number())
}

/// The ids of these uploads that have chunks with these keys.
fn ids_in(
    alloc: Global,
    uploads: &[UploadRow],
    keys: &[ChunkKey],
) -> Result<Vec<UploadId>, AllocError>
    ensures { IfOk result (λ ids. map upload_number ids.items
        ≡ filter (has_key keys.now) (map (λ row. upload_number row.id) uploads.now)) }
{
    let mut ids = Vec::new(alloc);
    for upload in uploads {
        if has_key(keys, upload.id) {
            ids.push(upload.id).map_err(AllocError::from)?;
        }
    }
    Ok(ids)
}

/// The regions that the rows of a database name, if each is one of bytes of the file, and no two rows have a byte or an
/// upload in common.
pub(crate) fn read_places<T: Numbered, D: Disk>(
    alloc: Global,
    rows: &mut T,
    disk: &mut D,
) -> Result<Regions, PlaceFault>
    requires { IsTrue (D.Disk.is_usable disk.old) }
    ensures still { Moves T.State (λ t. t) rows.old rows.new }
    ensures adds { AddsNothing T.State rows.old rows.new }
    ensures same { IsSameFile D.Disk disk.old disk.new }
    ensures usable { OnOk result (IsTrue (D.Disk.is_usable disk.new)) }
    ensures counted { OnOk result (D.Disk.faults disk.new ≡ D.Disk.faults disk.old) }
    ensures taken { IfOk result (λ regions. IsHonest T.State rows.new → HasTables T.State rows.old
        → IsOpen T.State rows.old
        × AreTaken (regions_of regions) (places_in (shown T.State rows.old))) }
    ensures within { IfOk result (λ regions. IsTrue (D.Disk.is_clean disk.new)
        → All (λ region. end_of region ≤ length (D.Disk.seen disk.old)) (regions_of regions)) }
    ensures faults { IfErr result (λ fault. IsOfPlaces fault → IsHonest T.State rows.new
        → IsTrue (D.Disk.is_clean disk.new) → HasTables T.State rows.old
        → AreGood (length (D.Disk.seen disk.old)) (places_in (shown T.State rows.old)) → ⊥) }
{
    let found = rows.chunks_numbered(alloc, PLACE_NUMBER)?;
    if !are_of_different_uploads(alloc, &found)? {
        return Err(PlaceFault::Overlapping);
    }
    let mut named = regions_named(alloc, &found)?;
    let regions = in_order(alloc, &mut named)?;
    match disk.len() {
        Ok(len) if len as u64 >= regions.end() => Ok(regions),
        Ok(_) => Err(PlaceFault::Short),
        Err(error) => Err(PlaceFault::Contents(ContentsFault::Failed(error))),
    }
}

/// Whether no two rows are of one upload.
fn are_of_different_uploads(alloc: Global, rows: &[NumberedChunk]) -> Result<bool, AllocError>
    ensures { IfOk result (λ different. MatchBool different
        (IsAscending (λ a b. a ≢ b) (map (λ row. upload_number row.upload) rows.now))
        (IsAscending (λ a b. a ≢ b) (map (λ row. upload_number row.upload) rows.now) → ⊥)) }
{
    let mut uploads = uploads_in(alloc, rows)?;
    uploads.sort_unstable();
    Ok(uploads.is_sorted_by(|a, b| *a < *b))
}

/// The uploads of the rows.
fn uploads_in(alloc: Global, rows: &[NumberedChunk]) -> Result<Vec<i64>, AllocError>
    ensures { IfOk result (λ uploads. uploads.items
        ≡ map (λ row. upload_number row.upload) rows.now) }
{
    rows.iter().map(|row| row.upload.number()).collect(alloc)
}

/// The region that a row names, if it has a byte and ends where a file may end.
fn region_named(row: &NumberedChunk) -> Option<Region>
    ensures some { IfSome result (IsNamed row.now.bytes.items) }
    ensures none { IfNone result ((region : Region) → IsNamed row.now.bytes.items region → ⊥) }
{
    let region = region_in(&row.bytes)?;
    if region.size == 0 || region.end()? > LARGEST_END {
        return None;
    }
    Some(region)
}

/// The regions that the rows name.
fn regions_named(alloc: Global, rows: &[NumberedChunk]) -> Result<Vec<Region>, PlaceFault>
    ensures ok { IfOk result (λ regions. AreNamed rows.now regions.items) }
    ensures err { IfErr result (λ fault. IsOfPlaces fault
        → All (λ row. (region : Region) × IsNamed row.bytes.items region) rows.now → ⊥) }
{
    let mut regions = Vec::with_capacity(alloc, rows.len())?;
    for row in rows {
        let Some(region) = region_named(row) else {
            return Err(PlaceFault::Unreadable);
        };
        regions.push(region).map_err(AllocError::from)?;
    }
    Ok(regions)
}

/// Takes these regions into use, if no two have a byte in common.
fn in_order(alloc: Global, regions: &mut [Region]) -> Result<Regions, PlaceFault>
    ensures ok { IfOk result (λ found. IsPermutation regions.old (regions_of found)) }
    ensures err { IfErr result (λ fault. IsOfPlaces fault → All IsRegion regions.old
        → IsAscending AreSeparate regions.old → ⊥) }
{
    regions.sort_unstable_by_key(|region| region.start);
    let mut found = Regions::new(alloc);
    for region in regions.iter() {
        if !found.push(*region)? {
            return Err(PlaceFault::Overlapping);
        }
    }
    Ok(found)
}
