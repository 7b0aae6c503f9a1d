//! Some locks, and the id after them.

ghost use Rattle.std.specs.Prelude.{◌≡◌, List, ℕ, map, slice_get, option_map};
ghost use Rattle.locks.specs.Finding.{lock_seen};
ghost use Rattle.cursor.specs.Paging.{page_seen, cut};

use locks::Lock;
use names::LockId;

/// A page of a repository's locks.
#[derive(Debug, Drop)]
pub struct Page {
    /// The locks, in rising ids.
    pub locks: Vec<Lock>,
    /// The id at which the next page begins; `None` if there are no more locks.
    pub next: Option<LockId>,
}

/// The id of the lock in this place.
fn id_at(rows: &[Lock], place: usize) -> Option<LockId>
    ensures { result ≡ option_map (λ row. row.id) (slice_get rows.now place) }
{
    match rows.get(place) {
        None => None,
        Some(row) => Some(row.id),
    }
}

/// The page of the first locks, at most `limit` of them.
pub(crate) fn cut(mut found: Vec<Lock>, limit: u32) -> Page
    ensures { (repo : List ℕ) →
        page_seen repo result ≡ cut limit (map (lock_seen repo) found.items) }
{
    let limit = limit as usize;
    let next = id_at(found.as_slice(), limit);
    found.truncate(limit);
    Page { locks: found, next }
}
