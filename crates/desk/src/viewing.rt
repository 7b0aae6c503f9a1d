//! Reads what a user can learn of a repository.

ghost use Rattle.std.specs.Prelude.{◌≡◌, IfOk, OnOk, IsPermutation, IsSorted, map, filter, if◌then◌else◌, []};
ghost use Rattle.names.specs.Names.{repo_text, user_text};
ghost use Rattle.model.specs.Callers.{sees};
ghost use Rattle.model.specs.Policy.{repo_named};
ghost use Rattle.model.specs.RepoState.{locks_of, objects_of, retired_of};
ghost use Rattle.model.specs.Views.{room_in, sees_objects, tokens_of, view_of};
ghost use Rattle.policy.specs.Values.{policy_view};
ghost use Rattle.refinement.specs.Left.{Reads};
ghost use Rattle.locks.specs.Finding.{lock_seen};
ghost use Rattle.desk.specs.Askers.{asker_policy, asker_repo, asker_user};
ghost use Rattle.desk.specs.Views.{digest_cmp, own_of, own_seen, size_of_row, size_seen, view_seen};

use crate::rights::{Asker, sees_objects};
use crate::sight::Sight;
use crate::views::{ObjectSize, OwnToken, View};
use locks::Lock;
use names::{Oid, RepoName, UserName};
use policy::Policy;
use std::alloc::{AllocError, Global};
use store::Store;
use tables::{StoreFault, TokenRow, UploadRow};

fn own_token(row: &TokenRow) -> OwnToken
    ensures { own_seen result ≡ own_of row.now }
{
    OwnToken {
        digest: row.digest,
        operation: row.operation,
        expires: row.expires,
    }
}

fn tokens_from(alloc: Global, rows: &[TokenRow]) -> Result<Vec<OwnToken>, AllocError>
    ensures { IfOk result (λ tokens. map own_seen tokens.items ≡ map own_of rows.now) }
{
    rows.iter().map(own_token).collect(alloc)
}

fn sort_by_digest(tokens: &mut Vec<OwnToken>) -> Result<(), AllocError>
    ensures same { IsPermutation tokens.old.items tokens.new.items }
    ensures sorted { OnOk result (IsSorted digest_cmp tokens.new.items) }
{
    tokens.sort_by_key(
        |token: &OwnToken| -> [u8; 32]
            ensures { result ≡ token.now.digest }
        { token.digest },
    )
}

/// The user's tokens for the repository, in the order of their digests.
fn own_tokens<S: Store>(
    alloc: Global,
    store: &mut S,
    user: &UserName,
    repo: &RepoName,
) -> Result<Vec<OwnToken>, StoreFault>
    ensures { Reads S.State store.old store.new (λ world. IfOk result (λ tokens.
        map own_seen tokens.items ≡ tokens_of (user_text user.now) (repo_text repo.now) world)) }
{
    let rows = tokens::of(alloc, store, user, repo)?;
    let mut tokens = tokens_from(alloc, rows.as_slice())?;
    sort_by_digest(&mut tokens)?;
    Ok(tokens)
}

fn object_size(row: &UploadRow) -> ObjectSize
    ensures { size_seen result ≡ size_of_row row.now }
{
    ObjectSize {
        name: row.oid,
        size: row.size,
    }
}

fn sizes_from(alloc: Global, rows: &[UploadRow]) -> Result<Vec<ObjectSize>, AllocError>
    ensures { IfOk result (λ objects. map size_seen objects.items ≡ map size_of_row rows.now) }
{
    rows.iter().map(object_size).collect(alloc)
}

/// The objects of the repository, in the order of their names.
fn objects_in<S: Store>(
    alloc: Global,
    store: &mut S,
    repo: &RepoName,
) -> Result<Vec<ObjectSize>, StoreFault>
    ensures { Reads S.State store.old store.new (λ world. IfOk result (λ objects.
        map size_seen objects.items ≡ objects_of (repo_text repo.now) world)) }
{
    let rows = uploads::all(alloc, store, Some(repo))?;
    Ok(sizes_from(alloc, rows.as_slice())?)
}

/// The objects that the user sees.
fn seen_objects<S: Store>(
    alloc: Global,
    store: &mut S,
    asker: &Asker<'_>,
) -> Result<Vec<ObjectSize>, StoreFault>
    ensures { Reads S.State store.old store.new (λ world. IfOk result (λ objects.
        map size_seen objects.items ≡ (if sees_objects (asker_policy asker.now) (asker_user asker.now)
        (asker_repo asker.now) then objects_of (asker_repo asker.now) world else []))) }
{
    if sees_objects(asker) {
        objects_in(alloc, store, asker.repo)
    } else {
        Ok(Vec::new(alloc))
    }
}

/// The names that the repository retired, in rising order, if the user sees the objects.
fn seen_retired<S: Store>(
    alloc: Global,
    store: &mut S,
    asker: &Asker<'_>,
) -> Result<Vec<Oid>, StoreFault>
    ensures { Reads S.State store.old store.new (λ world. IfOk result (λ names.
        names.items ≡ (if sees_objects (asker_policy asker.now) (asker_user asker.now)
        (asker_repo asker.now) then retired_of (asker_repo asker.now) world else []))) }
{
    if sees_objects(asker) {
        uploads::retired(alloc, store, asker.repo)
    } else {
        Ok(Vec::new(alloc))
    }
}

/// Keeps the locks that the user sees.
fn keep_seen(rows: &mut Vec<Lock>, sight: &Sight<'_>)
    ensures { map (lock_seen (asker_repo sight.now.asker)) rows.new.items
        ≡ filter (sees (asker_policy sight.now.asker) (asker_user sight.now.asker))
        (map (lock_seen (asker_repo sight.now.asker)) rows.old.items) }
{
    rows.retain(|row| sight.sees(row));
}

/// The locks that the user sees, in rising ids.
fn seen_locks<S: Store>(
    alloc: Global,
    store: &mut S,
    asker: &Asker<'_>,
) -> Result<Vec<Lock>, StoreFault>
    ensures { Reads S.State store.old store.new (λ world. IfOk result (λ locks.
        map (lock_seen (asker_repo asker.now)) locks.items
        ≡ filter (sees (asker_policy asker.now) (asker_user asker.now))
        (locks_of (asker_repo asker.now) world))) }
{
    let sight = Sight::new(alloc, asker)?;
    let mut rows = locks::all(alloc, store, asker.repo)?;
    keep_seen(&mut rows, &sight);
    Ok(rows)
}

/// The quota less the stored total; 0 if the policy has no such repository.
fn room_in<S: Store>(store: &mut S, policy: &Policy, repo: &RepoName) -> Result<i128, StoreFault>
    ensures { Reads S.State store.old store.new (λ world. IfOk result (λ room.
        room ≡ room_in (repo_named (repo_text repo.now) (policy_view policy.now)) world)) }
{
    match policy.repo(repo.as_str()) {
        Some(found) => {
            let used = uploads::used(store, found.name())?;
            Ok(i128::from(found.quota()) - i128::from(used))
        }
        None => Ok(0),
    }
}

/// Returns what the user can learn of the repository. The store is only read.
///
/// # Errors
///
/// `Refused`, or `Memory`: the view has all locks that the user sees, and all objects if the user sees them.
pub fn view<'a, S: Store>(
    alloc: Global,
    store: &mut S,
    policy: &'a Policy,
    user: &'a UserName,
    repo: &'a RepoName,
) -> Result<View<'a>, StoreFault>
    ensures { Reads S.State store.old store.new (λ world. IfOk result (λ view. view_seen view
        ≡ view_of world (policy_view policy.entry.now) (user_text user.entry.now)
        (repo_text repo.entry.now))) }
{
    let asker = Asker { policy, user, repo };
    let tokens = own_tokens(alloc, store, user, repo)?;
    let objects = seen_objects(alloc, store, &asker)?;
    let retired = seen_retired(alloc, store, &asker)?;
    let locks = seen_locks(alloc, store, &asker)?;
    let made = locks::made(store, repo)?;
    let room = room_in(store, policy, repo)?;
    Ok(View {
        user,
        repo,
        policy,
        tokens,
        objects,
        retired,
        locks,
        made,
        room,
    })
}
