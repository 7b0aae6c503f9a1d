//! Whether a copy that was begun is one of the database as it is now.

ghost use Rattle.std.specs.Prelude.{◌≡◌, map};
ghost use Rattle.std.specs.Bool.{Decides};
ghost use Rattle.tables.specs.Listing.{AreMarkedOf, read_marked};
ghost use Rattle.store.specs.Shown.{Reads};
ghost use Rattle.compared.specs.Comparing.{Compares};
ghost use Rattle.moving.specs.Moving.{Continues, objects_in};

use std::alloc::Global;
use store::Listed;
use tables::{MarkedUpload, StoreFault};

/// Returns the objects of a store, in rising ids.
///
/// # Errors
///
/// `Refused` or `Memory`. The tables are unchanged in any case.
pub(crate) fn objects_in<S: Listed>(
    alloc: Global,
    store: &mut S,
) -> Result<Vec<MarkedUpload>, StoreFault>
    ensures { Reads S.State store.old store.new result
        (λ t found. AreMarkedOf found.items (objects_in t)) }
{
    let mut uploads = store.all_uploads(alloc)?;
    uploads.retain(|upload| upload.is_complete);
    Ok(uploads)
}

/// Whether the two uploads have the same columns.
fn is_same_upload(a: &MarkedUpload, b: &MarkedUpload) -> bool
    ensures { Decides result (read_marked a.now ≡ read_marked b.now) }
{
    a.upload.id.number() == b.upload.id.number()
        && a.upload.repo.as_str() == b.upload.repo.as_str()
        && a.upload.oid == b.upload.oid
        && a.upload.size.get() == b.upload.size.get()
        && a.is_complete == b.is_complete
}

/// Whether the uploads are the same, in the same order.
fn are_same_uploads(first: &[MarkedUpload], second: &[MarkedUpload]) -> bool
    ensures { Decides result (map read_marked first.now ≡ map read_marked second.now) }
{
    if first.len() != second.len() {
        return false;
    }
    for i in 0..first.len() {
        if !is_same_upload(&first[i], &second[i]) {
            return false;
        }
    }
    true
}

/// Whether the uploads of the new database are the first objects of the old one: if so, the copy can be continued. If
/// not, it is of another database, or the old one has changed since.
///
/// # Errors
///
/// `Refused` or `Memory`. Both databases are unchanged in any case.
pub fn continues<A: Listed, B: Listed>(
    alloc: Global,
    old: &mut A,
    new: &mut B,
) -> Result<bool, StoreFault>
    ensures { Compares A.State B.State old.old old.new new.old new.new result Continues }
{
    let mut objects = objects_in(alloc, old)?;
    let copied = new.all_uploads(alloc)?;
    objects.truncate(copied.len());
    Ok(are_same_uploads(&copied, &objects))
}
