//! Uploads that begin.

ghost use Rattle.std.specs.Prelude.{◌≡◌, find, option_map};
ghost use Rattle.names.specs.Names.{repo_text};
ghost use Rattle.tables.specs.Statements.{is_staged_in};
ghost use Rattle.store.specs.Shown.{Begins};
ghost use Rattle.placed.specs.Freed.{Frees, id_in};
ghost use Rattle.placed.specs.Placed.{beside};

use crate::placed::Placed;
use crate::reading::PIECE;
use crate::removal::{forget_found, give_back, region_held};
use crate::staged::{Staged, add};
use contents::Draft;
use sqlite_disk::Disk;
use std::alloc::Global;
use store::Store;
use tables::{NewUpload, StoreFault, UploadId, UploadRow};

impl<T: Store, D: Disk> Placed<T, D> {
    /// Begins an upload in place of the staged one of its repository. A content as large as a piece or larger gets a
    /// region of the file.
    pub(crate) fn begin(
        &mut self,
        alloc: Global,
        upload: &NewUpload<'_>,
    ) -> Result<UploadId, StoreFault>
        ensures begins { Begins (beside T.State D.Disk) self.old self.new result upload.now }
        ensures frees { Frees T.State D.Disk self.old self.new upload.now.size
            (λ t. id_in (find (is_staged_in (repo_text upload.now.repo.now)) t.uploads)) result }
    {
        let replaced = id_of(self.rows.staged_upload(alloc, upload.repo)?);
        let freed = region_held(&mut self.rows, &self.staged, replaced)?;
        if upload.size.get() < PIECE {
            let id = self.rows.begin_upload(alloc, upload)?;
            forget_found(&mut self.staged, replaced);
            give_back(&mut self.regions, &mut self.disk, freed);
            return Ok(id);
        }
        self.staged.reserve(1)?;
        let Some(region) = self.regions.reserve(upload.size.get())? else {
            return Err(StoreFault::Refused);
        };
        match self.rows.begin_upload(alloc, upload) {
            Ok(id) => {
                forget_found(&mut self.staged, replaced);
                let draft = Draft::new(region);
                add(
                    &mut self.staged,
                    Staged {
                        id,
                        draft,
                        is_sealed: false,
                    },
                );
                give_back(&mut self.regions, &mut self.disk, freed);
                Ok(id)
            }
            Err(fault) => {
                self.regions.release(region);
                Err(fault)
            }
        }
    }
}

/// The id of an upload that was found.
fn id_of(found: Option<UploadRow>) -> Option<UploadId>
    ensures { result ≡ option_map (λ row. row.id) found }
{
    match found {
        Some(upload) => Some(upload.id),
        None => None,
    }
}
