//! A page of locks that are in memory.

ghost use Rattle.std.specs.Prelude.{◌≡◌, ℕ, List, filter, map, nat_le, IfOk};
ghost use Rattle.model.specs.Pages.{page_of};
ghost use Rattle.locks.specs.Finding.{lock_seen};
ghost use Rattle.cursor.specs.Paging.{cursor_or_first, page_seen};
ghost use Rattle.cursor.specs.Wanted.{Sees, Test, is_wanted};

use crate::filters::Filter;
use crate::pages::{Page, cut};
use crate::windows::{first_id, keep_wanted};
use locks::Lock;
use names::LockId;
use std::alloc::{AllocError, Global};

/// A copy of the lock, unless memory runs out.
fn copy_of(alloc: Global, row: &Lock) -> Result<Lock, AllocError>
    ensures { IfOk result (λ copy. (repo : List ℕ) → lock_seen repo copy ≡ lock_seen repo row.now) }
{
    Ok(Lock {
        id: row.id,
        ref_name: row.ref_name.to_owned(alloc)?,
        path: row.path.to_owned(alloc)?,
        owner: row.owner.to_owned(alloc)?,
        moment: row.moment,
    })
}

/// Copies of the locks, unless memory runs out.
fn copies_of(alloc: Global, rows: &[Lock]) -> Result<Vec<Lock>, AllocError>
    ensures { IfOk result (λ copies. (repo : List ℕ)
        → map (lock_seen repo) copies.items ≡ map (lock_seen repo) rows.now) }
{
    let mut copies = Vec::with_capacity(alloc, rows.len())?;
    for row in rows {
        let copy = copy_of(alloc, row)?;
        copies.push(copy)?;
    }
    Ok(copies)
}

/// Keeps the locks with this id or a later one.
fn keep_from(rows: &mut Vec<Lock>, start: LockId)
    ensures { (repo : List ℕ) → map (lock_seen repo) rows.new.items
        ≡ filter (λ l. nat_le start l.id) (map (lock_seen repo) rows.old.items) }
{
    rows.retain(|row| start.get() <= row.id.get());
}

/// Returns a page of these locks, which rise by id, as [`page`](crate::page) returns one of a repository's locks. The locks
/// of the page are copies.
///
/// # Errors
///
/// An [`AllocError`] if memory runs out.
pub fn page_among<V: Fn(&Lock) -> bool>(
    alloc: Global,
    locks: &[Lock],
    wanted: &Filter<'_>,
    visible: V,
    cursor: Option<LockId>,
    limit: u32,
) -> Result<Page, AllocError>
    requires { V.IsAlwaysCallable visible }
    ensures { IfOk result (λ page. (repo : List ℕ) (sees : Test) → Sees V.Fn visible repo sees
        → page_seen repo page ≡ page_of (cursor_or_first cursor) limit
        (filter (is_wanted wanted.entry.now sees) (map (lock_seen repo) locks.now))) }
{
    let mut found = copies_of(alloc, locks)?;
    keep_wanted(&mut found, wanted, &visible);
    keep_from(&mut found, cursor.unwrap_or(first_id()));
    Ok(cut(found, limit))
}
