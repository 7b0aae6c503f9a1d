//! The objects.

ghost use Rattle.std.specs.Prelude.{◌≡◌, IfOk, OnOk};
ghost use Rattle.sqlite_disk.specs.Disk.{Only};
ghost use Rattle.contents.specs.Drafts.{region_of};
ghost use Rattle.tables.specs.Staging.{asked_upload, read_upload, upload_fields, upload_number};
ghost use Rattle.moving.specs.Moving.{CountsObjects, IsOnlyRead};

use crate::continuing::objects_in;
use crate::fault::MoveFault;
use contents::{ContentsFault, Draft, Region};
use placed::{PLACE_NUMBER, place_of, region_in};
use sqlite::Alter;
use sqlite_disk::Disk;
use std::alloc::Global;
use store::{Listed, Restored, Store};
use tables::{NewChunk, NewUpload, StoreFault, UploadId, UploadRow};

/// The number of bytes from which on a content is in the file, and of each of its pieces but the last.
const PIECE: u64 = 65_536;

/// Receives the progress of a copy.
pub trait Progress {
    /// `done` of `all` objects are copied.
    fn show(&mut self, done: u64, all: u64);
}

/// The columns of an object, as it is added to another database.
fn row_of(object: &UploadRow) -> NewUpload<'_>
    ensures { upload_fields (asked_upload result (upload_number object.now.id)) ≡ read_upload object.now }
{
    NewUpload {
        repo: &object.repo,
        oid: &object.oid,
        size: object.size,
    }
}

/// The end of the last content that the new database has in its file.
fn end_of<S: Alter>(alloc: Global, rows: &mut tables::Store<S>) -> Result<u64, StoreFault> {
    let mut end = 0;
    for place in rows.chunks_numbered(alloc, PLACE_NUMBER)? {
        if let Some(region) = region_in(&place.bytes) {
            end = end.max(region.end().unwrap_or(end));
        }
    }
    Ok(end)
}

/// Appends the pieces of an object to a draft.
///
/// # Errors
///
/// `Store` and `Contents`, also if the pieces have more bytes than the draft has room for.
fn append_pieces<A: Store, D: Disk>(
    old: &mut A,
    id: UploadId,
    count: u32,
    draft: &mut Draft,
    disk: &mut D,
) -> Result<(), MoveFault>
    ensures old { IsOnlyRead A.State old.old old.new }
    ensures region { region_of draft.new ≡ region_of draft.old }
{
    for n in 0..count {
        if let Some(chunk) = old.chunk(id, n)? {
            draft.append(disk, chunk.bytes())?;
        }
    }
    Ok(())
}

/// Writes the content of an object into the file, and syncs it. Returns the region of the content.
///
/// # Errors
///
/// `Store` and `Contents`, also if the object has more or fewer bytes than its size says.
fn write_content<A: Store, D: Disk>(
    old: &mut A,
    object: &UploadRow,
    start: u64,
    disk: &mut D,
) -> Result<Region, MoveFault>
    ensures old { IsOnlyRead A.State old.old old.new }
    ensures region { IfOk result (λ region. region ≡ record { start = start; size = object.now.size }) }
    ensures synced { OnOk result (Only (D.Disk.seen disk.new) (D.Disk.may_leave disk.new)) }
{
    let size = object.size.get();
    let Ok(count) = u32::try_from(size.div_ceil(PIECE)) else {
        return Err(MoveFault::Contents(ContentsFault::Unfinished));
    };
    let mut draft = Draft::new(Region { start, size });
    append_pieces(old, object.id, count, &mut draft, disk)?;
    Ok(draft.finish(disk)?)
}

/// Copies an object, a larger content into the file. Returns the end of the last content in the file.
///
/// # Errors
///
/// `Store` and `Contents`. The database does not name the content.
fn copy_to_place<A: Listed, S: Alter, D: Disk>(
    alloc: Global,
    old: &mut A,
    object: &UploadRow,
    rows: &mut tables::Store<S>,
    disk: &mut D,
    end: u64,
) -> Result<u64, MoveFault>
    ensures { IsOnlyRead A.State old.old old.new }
{
    if object.size.get() < PIECE {
        let content = old.chunk(object.id, 0)?;
        let chunk = content.as_ref().map(|content| NewChunk {
            n: 0,
            bytes: content.bytes(),
        });
        rows.restore_object(&row_of(object), object.id, chunk)?;
        return Ok(end);
    }
    let region = write_content(old, object, end, disk)?;
    let place = place_of(alloc, region)?;
    let chunk = NewChunk {
        n: PLACE_NUMBER,
        bytes: &place,
    };
    rows.restore_object(&row_of(object), object.id, Some(chunk))?;
    Ok(region.end().unwrap_or(end))
}

/// Copies the objects that a new database does not have yet. Each content of 65,536 bytes or more is written into the
/// file and synced before the row that says where it is. Returns the number of all objects.
///
/// # Errors
///
/// `Store` and `Contents`. What was copied stays. The old database is unchanged in any case.
pub fn copy_to_places<A: Listed, S: Alter, D: Disk, P: Progress>(
    alloc: Global,
    old: &mut A,
    rows: &mut tables::Store<S>,
    disk: &mut D,
    progress: &mut P,
) -> Result<u64, MoveFault>
    ensures old { IsOnlyRead A.State old.old old.new }
    ensures count { IfOk result (CountsObjects A.State old.old old.new) }
{
    let objects = objects_in(alloc, old)?;
    let have = rows.all_uploads(alloc)?.len();
    let mut end = end_of(alloc, rows)?;
    for (index, object) in objects.iter().enumerate().skip(have) {
        progress.show(index as u64, objects.len() as u64);
        end = copy_to_place(alloc, old, &object.upload, rows, disk, end)?;
    }
    Ok(objects.len() as u64)
}

/// Copies the chunks of an object that a new database does not have yet, up to the first that neither has.
///
/// # Errors
///
/// `Refused` or `Memory`. What was copied stays.
fn copy_chunks<A: Store, B: Store>(old: &mut A, new: &mut B, id: UploadId) -> Result<(), StoreFault>
    ensures { IsOnlyRead A.State old.old old.new }
{
    for n in 0..u32::MAX {
        if new.chunk(id, n)?.is_none() {
            let Some(chunk) = old.chunk(id, n)? else {
                return Ok(());
            };
            new.add_chunk(id, n, chunk.bytes())?;
        }
    }
    Err(StoreFault::Refused)
}

/// Copies the objects that a new database does not have yet, with their contents as rows. Returns the number of all
/// objects.
///
/// # Errors
///
/// `Refused` or `Memory`. What was copied stays; of the last object some chunks may be missing, which the next copy adds.
/// The old database is unchanged in any case.
pub fn copy_to_rows<A: Listed, B: Listed + Restored, P: Progress>(
    alloc: Global,
    old: &mut A,
    new: &mut B,
    progress: &mut P,
) -> Result<u64, StoreFault>
    ensures old { IsOnlyRead A.State old.old old.new }
    ensures count { IfOk result (CountsObjects A.State old.old old.new) }
{
    let objects = objects_in(alloc, old)?;
    let have = new.all_uploads(alloc)?.len();
    for (index, object) in objects.iter().enumerate().skip(have.saturating_sub(1)) {
        progress.show(index as u64, objects.len() as u64);
        let id = object.upload.id;
        if index >= have {
            new.restore_object(&row_of(&object.upload), id, None)?;
        }
        copy_chunks(old, new, id)?;
    }
    Ok(objects.len() as u64)
}
