//! A page, put together from windows of 64 rows.

ghost use Rattle.std.specs.Prelude.{◌≡◌, ◌++◌, ◌<◌, ◌≤◌, Err, List, ℕ, Some, map, filter, IfOk, IfSome};
ghost use Rattle.names.specs.Names.{repo_text};
ghost use Rattle.names.specs.Texts.{last_lock_id};
ghost use Rattle.model.specs.Pages.{page_of};
ghost use Rattle.refinement.specs.Left.{Reads};
ghost use Rattle.locks.specs.Finding.{lock_seen};
ghost use Rattle.cursor.specs.Wanted.{Sees, Test, is_wanted, wanted_locks};
ghost use Rattle.cursor.specs.Paging.{page_seen, cursor_or_first, left, id_after, next_start, unless_full};

use crate::filters::Filter;
use crate::pages::{Page, cut};
use locks::{Lock, window};
use names::{LockId, RepoName};
use std::alloc::Global;
use store::Store;
use tables::StoreFault;

/// The wanted locks of a window, and the id at which the next window begins.
#[derive(Drop)]
struct Window {
    locks: Vec<Lock>,
    next: Option<LockId>,
}

pub(crate) fn first_id() -> LockId
    ensures { result ≡ 1 }
{
    LockId::from_number(1).unwrap()
}

/// The id after this one, if there is one.
fn id_after(id: LockId) -> Option<LockId>
    ensures { result ≡ id_after id }
{
    if id.get() < u32::MAX {
        LockId::from_number(id.get() + 1)
    } else {
        None
    }
}

/// The id at which the window after these rows begins; `None` if they are the last.
fn next_start(rows: &[Lock]) -> Option<LockId>
    ensures { result ≡ next_start rows.now }
{
    match rows.get(63) {
        None => None,
        Some(last) => id_after(last.id),
    }
}

/// The id at which the next window begins, which has to be above `start`. Else it is `Refused`: the
/// disk did not return what was written, and reading would not end.
fn later_start(start: LockId, rows: &[Lock]) -> Result<Option<LockId>, StoreFault>
    ensures next { IfOk result (λ next. next ≡ next_start rows.now) }
    ensures later { IfOk result (λ next. IfSome next
        (λ id. (start < id) × (id ≤ last_lock_id))) }
{
    match next_start(rows) {
        None => Ok(None),
        Some(id) if start.get() < id.get() => Ok(Some(id)),
        Some(_) => Err(StoreFault::Refused),
    }
}

/// Whether the lock meets the filters and is accepted.
fn is_wanted<V: Fn(&Lock) -> bool>(row: &Lock, wanted: &Filter<'_>, visible: &V) -> bool
    requires { V.IsAlwaysCallable visible.now }
    ensures { (repo : List ℕ) (sees : Test) → Sees V.Fn visible.now repo sees
        → result ≡ is_wanted wanted.entry.now sees (lock_seen repo row.now) }
{
    if !wanted.meets(row) {
        return false;
    }
    visible(row)
}

/// Keeps the locks that meet the filters and are accepted.
pub(crate) fn keep_wanted<V: Fn(&Lock) -> bool>(
    rows: &mut Vec<Lock>,
    wanted: &Filter<'_>,
    visible: &V,
)
    requires { V.IsAlwaysCallable visible.now }
    ensures { (repo : List ℕ) (sees : Test) → Sees V.Fn visible.now repo sees
        → map (lock_seen repo) rows.new.items
        ≡ filter (is_wanted wanted.entry.now sees) (map (lock_seen repo) rows.old.items) }
{
    rows.retain(|row| is_wanted(row, wanted, visible));
}

/// Reads the window that begins at this id, and keeps the wanted locks.
fn read_window<S: Store, V: Fn(&Lock) -> bool>(
    alloc: Global,
    store: &mut S,
    repo: &RepoName,
    wanted: &Filter<'_>,
    visible: &V,
    start: LockId,
) -> Result<Window, StoreFault>
    requires { V.IsAlwaysCallable visible.now }
    ensures later { IfOk result (λ window. IfSome window.next
        (λ id. (start < id) × (id ≤ last_lock_id))) }
    ensures world { Reads S.State store.old store.new (λ world.
        (sees : Test) → Sees V.Fn visible.now (repo_text repo.now) sees → IfOk result (λ window.
        map (lock_seen (repo_text repo.now)) window.locks.items
        ++ left (wanted_locks (repo_text repo.now) world wanted.entry.now sees) window.next
        ≡ left (wanted_locks (repo_text repo.now) world wanted.entry.now sees) (Some start))) }
{
    let mut rows = window(alloc, store, repo, start)?;
    let next = later_start(start, rows.as_slice())?;
    keep_wanted(&mut rows, wanted, visible);
    Ok(Window { locks: rows, next })
}

/// The id to read on at; `None` if more locks are found than a page has.
fn unless_full(limit: u32, found: &[Lock], next: Option<LockId>) -> Option<LockId>
    ensures { result ≡ unless_full limit found.now next }
{
    if found.len() > limit as usize {
        None
    } else {
        next
    }
}

/// Returns a page of the repository's locks that meet the filters and that `visible` accepts: of those
/// with the id `cursor` or a later one (without a cursor, of all) the first `limit` in rising ids, and
/// the id of the one after them.
///
/// The rows are read 64 at a time, until the page and its next are found. `visible` is asked at most
/// once about a lock.
///
/// # Errors
///
/// `Refused` or `Memory`. The contents of the store are unchanged in any case.
pub fn page<S: Store, V: Fn(&Lock) -> bool>(
    alloc: Global,
    store: &mut S,
    repo: &RepoName,
    wanted: &Filter<'_>,
    visible: V,
    cursor: Option<LockId>,
    limit: u32,
) -> Result<Page, StoreFault>
    requires { V.IsAlwaysCallable visible }
    ensures { Reads S.State store.old store.new (λ world.
        (sees : Test) → Sees V.Fn visible (repo_text repo.now) sees → IfOk result (λ page.
        page_seen (repo_text repo.now) page ≡ page_of (cursor_or_first cursor) limit
        (wanted_locks (repo_text repo.now) world wanted.entry.now sees))) }
{
    let mut found = Vec::new(alloc);
    let mut next = Some(cursor.unwrap_or(first_id()));
    while let Some(start) = next {
        let mut window = read_window(alloc, store, repo, wanted, &visible, start)?;
        found.append(&mut window.locks)?;
        next = unless_full(limit, found.as_slice(), window.next);
    }
    Ok(cut(found, limit))
}
