//! Uploads and objects that are removed, and the regions of their contents, which are free again.

ghost use Rattle.std.specs.Prelude.{◌≡◌, ◌≤◌, length, find, Some, option_map, is_some};
ghost use Rattle.std.specs.Vec.{vec_capacity};
ghost use Rattle.contents.specs.Files.{KeepsRegions};
ghost use Rattle.contents.specs.InUse.{regions_of};
ghost use Rattle.contents.specs.declared.region.Region.{Region};
ghost use Rattle.names.specs.Names.{repo_text};
ghost use Rattle.tables.specs.Discarding.{after_discard};
ghost use Rattle.tables.specs.Retiring.{after_retire};
ghost use Rattle.tables.specs.Staging.{upload_number, staged_with, without_staged};
ghost use Rattle.tables.specs.Statements.{is_object};
ghost use Rattle.store.specs.Shown.{Changes};
ghost use Rattle.placed.specs.Altered.{IsAlteredBy};
ghost use Rattle.placed.specs.Freed.{IsFreed, IsCut, FindsRegion, Frees, id_in};
ghost use Rattle.placed.specs.Placed.{beside, staged_of};
ghost use Rattle.placed.specs.View.{others_of_found};

use crate::place::{PLACE_NUMBER, region_in};
use crate::placed::Placed;
use crate::staged::{Staged, forget, index_of};
use contents::{Region, Regions, trim};
use names::{Oid, RepoName};
use sqlite_disk::Disk;
use store::Store;
use tables::{ObjectRow, StoreFault, UploadId};

impl<T: Store, D: Disk> Placed<T, D> {
    /// Removes an upload, and returns whether it was there.
    pub(crate) fn remove(&mut self, id: UploadId) -> Result<bool, StoreFault>
        ensures changes { Changes (beside T.State D.Disk) self.old self.new result
            (without_staged (upload_number id))
            (λ t removed. removed ≡ is_some (staged_with (upload_number id) t)) }
        ensures frees { Frees T.State D.Disk self.old self.new 0
            (λ t. id_in (staged_with (upload_number id) t)) result }
    {
        let region = region_held(&mut self.rows, &self.staged, Some(id))?;
        let removed = self.rows.remove_upload(id)?;
        if removed {
            forget(&mut self.staged, id);
            give_back(&mut self.regions, &mut self.disk, region);
        }
        Ok(removed)
    }

    /// Removes an object, whose name is kept as retired, and returns whether it was there.
    pub(crate) fn retire(&mut self, repo: &RepoName, oid: &Oid) -> Result<bool, StoreFault>
        ensures changes { Changes (beside T.State D.Disk) self.old self.new result
            (after_retire (repo_text repo.now) oid.now)
            (λ t removed. removed
            ≡ is_some (find (is_object (repo_text repo.now) oid.now) t.uploads)) }
        ensures frees { Frees T.State D.Disk self.old self.new 0
            (λ t. id_in (find (is_object (repo_text repo.now) oid.now) t.uploads)) result }
    {
        let found = id_of(self.rows.object(repo, oid)?);
        let region = region_held(&mut self.rows, &self.staged, found)?;
        let removed = self.rows.retire_object(repo, oid)?;
        if removed {
            forget_found(&mut self.staged, found);
            give_back(&mut self.regions, &mut self.disk, region);
        }
        Ok(removed)
    }

    /// Removes an object, and returns whether it was there.
    pub(crate) fn discard(&mut self, repo: &RepoName, oid: &Oid) -> Result<bool, StoreFault>
        ensures changes { Changes (beside T.State D.Disk) self.old self.new result
            (after_discard (repo_text repo.now) oid.now)
            (λ t removed. removed
            ≡ is_some (find (is_object (repo_text repo.now) oid.now) t.uploads)) }
        ensures frees { Frees T.State D.Disk self.old self.new 0
            (λ t. id_in (find (is_object (repo_text repo.now) oid.now) t.uploads)) result }
    {
        let found = id_of(self.rows.object(repo, oid)?);
        let region = region_held(&mut self.rows, &self.staged, found)?;
        let removed = self.rows.discard_object(repo, oid)?;
        if removed {
            forget_found(&mut self.staged, found);
            give_back(&mut self.regions, &mut self.disk, region);
        }
        Ok(removed)
    }
}

/// The region of the content of an upload that was found; `None` if none of it is in the file.
pub(crate) fn region_held<T: Store>(
    rows: &mut T,
    staged: &[Staged],
    upload: Option<UploadId>,
) -> Result<Option<Region>, StoreFault>
    ensures { FindsRegion T.State rows.old rows.new staged.now (option_map upload_number upload) result }
{
    let Some(id) = upload else {
        return Ok(None);
    };
    if let Some(index) = index_of(staged, id) {
        return Ok(Some(staged[index].draft.region()));
    }
    match rows.chunk(id, PLACE_NUMBER)? {
        Some(place) => Ok(region_in(place.bytes())),
        None => Ok(None),
    }
}

/// The id of an object that was found.
fn id_of(found: Option<ObjectRow>) -> Option<UploadId>
    ensures { result ≡ option_map (λ row. row.id) found }
{
    match found {
        Some(object) => Some(object.id),
        None => None,
    }
}

/// Forgets the content of an upload that was found.
pub(crate) fn forget_found(staged: &mut Vec<Staged>, found: Option<UploadId>)
    ensures items { staged.new.items
        ≡ others_of_found (option_map upload_number found) staged.old.items }
    ensures len { length staged.new.items ≤ length staged.old.items }
    ensures capacity { vec_capacity staged.new ≡ vec_capacity staged.old }
{
    if let Some(id) = found {
        forget(staged, id);
    }
}

/// Takes the region of a content that was removed out of use, and cuts the file after the last one in use. The file is
/// only longer than it needs to be if it cannot be cut.
pub(crate) fn give_back<D: Disk>(regions: &mut Regions, disk: &mut D, region: Option<Region>)
    ensures freed { IsFreed (regions_of regions.old) (regions_of regions.new) region }
    ensures kept { IsAlteredBy D.Disk (KeepsRegions (regions_of regions.new)) disk.old disk.new }
    ensures cut { (freed : Region) → region ≡ Some freed
        → IsCut D.Disk disk.old disk.new (regions_of regions.new) }
{
    if let Some(region) = region {
        regions.release(region);
        let _ = trim(disk, regions);
    }
}
