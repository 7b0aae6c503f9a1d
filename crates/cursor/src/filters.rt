//! The filters of a list of locks.

ghost use Rattle.std.specs.Prelude.{◌≡◌, ◌==◌, List, ℕ, bytes_eq, option_map};
ghost use Rattle.names.specs.Names.{path_text, ref_text};
ghost use Rattle.model.specs.Forms.{is_if_given};
ghost use Rattle.model.specs.Locks.{meets};
ghost use Rattle.locks.specs.Finding.{lock_seen};
ghost use Rattle.cursor.specs.Wanted.{form_of_filter};

use locks::Lock;
use names::{LockId, LockPath, RefName};

/// Which locks are wanted: those that have each part that is given (Git LFS API, File Locking,
/// "List Locks"). With no part, every lock is.
#[derive(Clone, Copy, Debug)]
pub struct Filter<'a> {
    /// The path of the lock.
    pub path: Option<&'a LockPath>,
    /// The id of the lock.
    pub id: Option<LockId>,
    /// The ref of the lock.
    pub ref_name: Option<&'a RefName>,
}

fn has_path(wanted: Option<&LockPath>, row: &Lock) -> bool
    ensures { result ≡ is_if_given (λ path. bytes_eq (path_text row.now.path) path)
        (option_map (λ path. path_text path.now) wanted.entry) }
{
    match wanted {
        None => true,
        Some(path) => row.path.as_str() == path.as_str(),
    }
}

fn has_id(wanted: Option<LockId>, row: &Lock) -> bool
    ensures { result ≡ is_if_given (λ id. row.now.id == id) wanted }
{
    match wanted {
        None => true,
        Some(id) => row.id.get() == id.get(),
    }
}

fn has_ref(wanted: Option<&RefName>, row: &Lock) -> bool
    ensures { result ≡ is_if_given (λ name. bytes_eq (ref_text row.now.ref_name) name)
        (option_map (λ name. ref_text name.now) wanted.entry) }
{
    match wanted {
        None => true,
        Some(name) => row.ref_name.as_str() == name.as_str(),
    }
}

impl Filter<'_> {
    /// Whether the lock has each part that is given.
    pub(crate) fn meets(&self, row: &Lock) -> bool
        ensures { (repo : List ℕ) →
            result ≡ meets (form_of_filter self.entry.now) (lock_seen repo row.now) }
    {
        has_path(self.path, row) && has_id(self.id, row) && has_ref(self.ref_name, row)
    }
}
