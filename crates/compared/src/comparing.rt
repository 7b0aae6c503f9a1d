//! Whether two stores have the same rows.

ghost use Rattle.std.specs.Prelude.{◌≡◌, true, filter, map, Ok};
ghost use Rattle.tables.specs.Steps.{token_fields};
ghost use Rattle.tables.specs.Statements.{is_complete};
ghost use Rattle.model.specs.World.{World};
ghost use Rattle.store.specs.Shown.{HasTables, IsHonest};
ghost use Rattle.refinement.specs.Representation.{Holds};
ghost use Rattle.compared.specs.Comparing.{Compares, IsCurrent};
ghost use Rattle.tables.specs.Listing.{repo_fields, repo_lock_fields, retired_fields};
ghost use Rattle.compared.specs.Same.{AreSame};

use crate::chunks::have_same_chunks;
use crate::rows::are_same;
use std::alloc::Global;
use store::Listed;
use tables::StoreFault;

/// Whether the rows of repositories are the same, in the same order.
fn have_same_repos<A: Listed, B: Listed>(
    alloc: Global,
    old: &mut A,
    new: &mut B,
) -> Result<bool, StoreFault>
    ensures { Compares A.State B.State old.old old.new new.old new.new result
        (λ t u. map repo_fields u.repos ≡ map repo_fields t.repos) }
{
    let ours = old.all_repos(alloc)?;
    let theirs = new.all_repos(alloc)?;
    Ok(are_same(&ours, &theirs))
}

/// Whether the locks are the same, in the same order.
fn have_same_locks<A: Listed, B: Listed>(
    alloc: Global,
    old: &mut A,
    new: &mut B,
) -> Result<bool, StoreFault>
    ensures { Compares A.State B.State old.old old.new new.old new.new result
        (λ t u. map repo_lock_fields u.locks ≡ map repo_lock_fields t.locks) }
{
    let ours = old.all_locks(alloc)?;
    let theirs = new.all_locks(alloc)?;
    Ok(are_same(&ours, &theirs))
}

/// Whether the tokens are the same, in the same order.
fn have_same_tokens<A: Listed, B: Listed>(
    alloc: Global,
    old: &mut A,
    new: &mut B,
) -> Result<bool, StoreFault>
    ensures { Compares A.State B.State old.old old.new new.old new.new result
        (λ t u. map token_fields u.tokens ≡ map token_fields t.tokens) }
{
    let ours = old.all_tokens(alloc)?;
    let theirs = new.all_tokens(alloc)?;
    Ok(are_same(&ours, &theirs))
}

/// Whether the retired names are the same, in the same order.
fn have_same_retired<A: Listed, B: Listed>(
    alloc: Global,
    old: &mut A,
    new: &mut B,
) -> Result<bool, StoreFault>
    ensures { Compares A.State B.State old.old old.new new.old new.new result
        (λ t u. map retired_fields u.retired ≡ map retired_fields t.retired) }
{
    let ours = old.all_retired(alloc)?;
    let theirs = new.all_retired(alloc)?;
    Ok(are_same(&ours, &theirs))
}

/// Whether the uploads of the second store are the complete ones of the first, in the same order.
fn have_same_uploads<A: Listed, B: Listed>(
    alloc: Global,
    old: &mut A,
    new: &mut B,
) -> Result<bool, StoreFault>
    ensures { Compares A.State B.State old.old old.new new.old new.new result
        (λ t u. u.uploads ≡ filter is_complete t.uploads) }
{
    let mut ours = old.all_uploads(alloc)?;
    let theirs = new.all_uploads(alloc)?;
    ours.retain(|upload| upload.is_complete);
    Ok(are_same(&ours, &theirs))
}

/// Whether the second store has the same tables as the first, but for staged uploads and their chunks: the same
/// repositories with their counts, locks, tokens and retired names, in the same order; the complete uploads, under the
/// same ids; and their chunks, with the same bytes. If it is so, the second represents the world of the first.
///
/// The rows are in memory whole, and so is the key of each chunk; of the contents, one chunk of each store at a time.
///
/// # Errors
///
/// `Refused` or `Memory`. The tables of both are unchanged in any case.
pub fn is_same<A: Listed, B: Listed>(
    alloc: Global,
    old: &mut A,
    new: &mut B,
) -> Result<bool, StoreFault>
    ensures same { Compares A.State B.State old.old old.new new.old new.new result AreSame }
    ensures holds { result ≡ Ok true → IsHonest A.State old.new → IsHonest B.State new.new
        → HasTables B.State new.old → IsCurrent B.State new.old → (world : World)
        → Holds A.State old.old world → Holds B.State new.new world }
{
    if !have_same_repos(alloc, old, new)? {
        return Ok(false);
    }
    if !have_same_locks(alloc, old, new)? {
        return Ok(false);
    }
    if !have_same_tokens(alloc, old, new)? {
        return Ok(false);
    }
    if !have_same_retired(alloc, old, new)? {
        return Ok(false);
    }
    if !have_same_uploads(alloc, old, new)? {
        return Ok(false);
    }
    have_same_chunks(alloc, old, new)
}
