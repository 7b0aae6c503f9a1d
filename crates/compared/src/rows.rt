//! Whether two rows have the same columns.

ghost use Rattle.std.specs.Prelude.{◌≡◌};
ghost use Rattle.std.specs.Bool.{Decides};
ghost use Rattle.tables.specs.Steps.{read_token};
ghost use Rattle.tables.specs.Listing.{read_repo, read_repo_lock, read_retired, read_marked, read_key};
ghost use Rattle.compared.specs.Comparing.{ArePaired};

use tables::{ChunkKey, MarkedUpload, RepoLock, RepoRow, RetiredRow, TokenRow};

/// A row as a store lists it.
pub(crate) trait ListedRow {
    /// The two rows have the same columns.
    ghost same_columns: { Self → Self → Type 0 };

    /// Whether the two rows have the same columns.
    fn has_same_columns(&self, other: &Self) -> bool
        ensures { Decides result (Self.same_columns self.now other.now) };
}

impl ListedRow for RepoRow {
    ghost same_columns = { λ a b. read_repo a ≡ read_repo b };

    fn has_same_columns(&self, other: &RepoRow) -> bool {
        self.name.as_str() == other.name.as_str()
            && self.made == other.made
            && self.used == other.used
    }
}

impl ListedRow for RepoLock {
    ghost same_columns = { λ a b. read_repo_lock a ≡ read_repo_lock b };

    fn has_same_columns(&self, other: &RepoLock) -> bool {
        self.repo.as_str() == other.repo.as_str()
            && self.lock.id.get() == other.lock.id.get()
            && self.lock.ref_name.as_str() == other.lock.ref_name.as_str()
            && self.lock.path.as_str() == other.lock.path.as_str()
            && self.lock.owner.as_str() == other.lock.owner.as_str()
            && self.lock.moment.get() == other.lock.moment.get()
    }
}

impl ListedRow for TokenRow {
    ghost same_columns = { λ a b. read_token a ≡ read_token b };

    fn has_same_columns(&self, other: &TokenRow) -> bool {
        self.digest == other.digest
            && self.user.as_str() == other.user.as_str()
            && self.repo.as_str() == other.repo.as_str()
            && self.operation == other.operation
            && self.expires.get() == other.expires.get()
    }
}

impl ListedRow for RetiredRow {
    ghost same_columns = { λ a b. read_retired a ≡ read_retired b };

    fn has_same_columns(&self, other: &RetiredRow) -> bool {
        self.repo.as_str() == other.repo.as_str() && self.oid == other.oid
    }
}

impl ListedRow for MarkedUpload {
    ghost same_columns = { λ a b. read_marked a ≡ read_marked b };

    fn has_same_columns(&self, other: &MarkedUpload) -> bool {
        self.upload.id.number() == other.upload.id.number()
            && self.upload.repo.as_str() == other.upload.repo.as_str()
            && self.upload.oid == other.upload.oid
            && self.upload.size.get() == other.upload.size.get()
            && self.is_complete == other.is_complete
    }
}

impl ListedRow for ChunkKey {
    ghost same_columns = { λ a b. read_key a ≡ read_key b };

    fn has_same_columns(&self, other: &ChunkKey) -> bool {
        self.upload.number() == other.upload.number() && self.n == other.n
    }
}

/// Whether the rows are the same, in the same order.
pub(crate) fn are_same<T: ListedRow>(old: &[T], new: &[T]) -> bool
    ensures { Decides result (ArePaired T.same_columns old.now new.now) }
{
    if old.len() != new.len() {
        return false;
    }
    for i in 0..old.len() {
        if !old[i].has_same_columns(&new[i]) {
            return false;
        }
    }
    true
}
