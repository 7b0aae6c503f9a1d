//! Finds objects, and the names that may not be stored again.

ghost use Rattle.std.specs.Prelude.{◌≡◌, IfOk, option_map};
ghost use Rattle.names.specs.Names.{repo_text};
ghost use Rattle.model.specs.World.{is_retired, total};
ghost use Rattle.model.specs.RepoState.{retired_of};
ghost use Rattle.refinement.specs.Left.{Reads};
ghost use Rattle.uploads.specs.Finding.{Finds};
ghost use Rattle.uploads.specs.Listing.{Lists};

use names::{Oid, RepoName};
use std::alloc::Global;
use store::Store;
use tables::{ObjectRow, StoreFault, UploadRow};

/// Returns the object that the repository has under this name, if there is one: the upload that has its bytes, and
/// its size.
///
/// # Errors
///
/// `Refused` or `Memory`. The contents of the store are unchanged in any case.
pub fn find<S: Store>(
    store: &mut S,
    repo: &RepoName,
    oid: &Oid,
) -> Result<Option<ObjectRow>, StoreFault>
    ensures { Reads S.State store.old store.new (λ world.
        IfOk result (Finds S.State world store.new (repo_text repo.now) oid.now)) }
{
    store.object(repo, oid)
}

/// Returns the number of bytes that the repository stores: the sizes of its objects, added up.
///
/// # Errors
///
/// `Refused` or `Memory`. The contents of the store are unchanged in any case.
pub fn used<S: Store>(store: &mut S, repo: &RepoName) -> Result<u64, StoreFault>
    ensures { Reads S.State store.old store.new (λ world.
        IfOk result (λ n. n ≡ total (repo_text repo.now) world)) }
{
    store.used(repo)
}

/// Returns the objects of the repository, or of all repositories, in the order of repositories and names: of each its
/// repository, its name, its size, and the upload that has its bytes.
///
/// # Errors
///
/// `Refused` or `Memory`. The contents of the store are unchanged in any case.
pub fn all<S: Store>(
    alloc: Global,
    store: &mut S,
    repo: Option<&RepoName>,
) -> Result<Vec<UploadRow>, StoreFault>
    ensures { Reads S.State store.old store.new (λ world.
        IfOk result (λ found. Lists S.State world store.new
        (option_map (λ r. repo_text r.now) repo.entry) found.items)) }
{
    store.objects(alloc, repo)
}

/// Returns whether the repository has retired this name: it removed the object of the name for good.
///
/// # Errors
///
/// `Refused` or `Memory`. The contents of the store are unchanged in any case.
pub fn is_retired<S: Store>(store: &mut S, repo: &RepoName, oid: &Oid) -> Result<bool, StoreFault>
    ensures { Reads S.State store.old store.new (λ world.
        IfOk result (λ retired. retired ≡ is_retired (repo_text repo.now) oid.now world)) }
{
    store.is_retired(repo, oid)
}

/// Returns the names that the repository has retired, in rising order.
///
/// # Errors
///
/// `Refused` or `Memory`. The contents of the store are unchanged in any case.
pub fn retired<S: Store>(
    alloc: Global,
    store: &mut S,
    repo: &RepoName,
) -> Result<Vec<Oid>, StoreFault>
    ensures { Reads S.State store.old store.new (λ world.
        IfOk result (λ names. names.items ≡ retired_of (repo_text repo.now) world)) }
{
    store.retired(alloc, repo)
}
