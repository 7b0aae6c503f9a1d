//! Pages of locks, as a client sees them, and their bodies (Git LFS API, File Locking, "List Locks"
//! and "List Locks for Verification").

ghost use Rattle.std.specs.Prelude.{◌≡◌, IfOk, map, string_bytes};
ghost use Rattle.serde_json.specs.View.{view};
ghost use Rattle.serde_json.specs.Written.{compact_text};
ghost use Rattle.model.specs.Replies.{locks_data, list_json};
ghost use Rattle.forms.specs.ShownLocks.{lock_shown, page_shown, split_shown};

use crate::shown_lock::{ShownLock, lock_value};
use names::LockId;
use serde_json::{Value, json};
use std::alloc::{AllocError, Global};

/// A page of locks.
#[derive(Clone, Copy, Debug)]
pub struct ShownPage<'a> {
    /// The locks, in the order in which they are written.
    pub locks: &'a [ShownLock<'a>],
    /// The id at which the next page begins; `None` if no lock follows.
    pub next: Option<LockId>,
}

/// A page of locks, with the caller's own apart.
#[derive(Clone, Copy, Debug)]
pub struct SplitPage<'a> {
    /// The locks of the caller, in the order in which they are written.
    pub ours: &'a [ShownLock<'a>],
    /// The locks of other users, in the order in which they are written.
    pub theirs: &'a [ShownLock<'a>],
    /// The id at which the next page begins; `None` if no lock follows.
    pub next: Option<LockId>,
}

/// The JSON array of the locks.
fn locks_value(alloc: Global, locks: &[ShownLock<'_>]) -> Result<Value, AllocError>
    ensures { IfOk result (λ value. view value ≡ locks_data (map lock_shown locks.now)) }
{
    let mut values = Vec::with_capacity(alloc, locks.len())?;
    for lock in locks {
        values.push(lock_value(alloc, lock)?)?;
    }
    Ok(Value::Array(values))
}

/// The JSON value of a page.
fn list_value(alloc: Global, page: &ShownPage<'_>) -> Result<Value, AllocError>
    ensures { IfOk result (λ value. view value ≡ list_json (page_shown page.now)) }
{
    let locks = locks_value(alloc, page.locks)?;
    match page.next {
        Some(id) => {
            let next = id.to_string(alloc)?;
            json!(in alloc; {"locks": locks, "next_cursor": next})
        }
        None => json!(in alloc; {"locks": locks}),
    }
}

/// The JSON value of a page with the caller's own locks apart.
fn split_value(alloc: Global, page: &SplitPage<'_>) -> Result<Value, AllocError>
    ensures { IfOk result (λ value. view value ≡ split_shown page.now) }
{
    let ours = locks_value(alloc, page.ours)?;
    let theirs = locks_value(alloc, page.theirs)?;
    match page.next {
        Some(id) => {
            let next = id.to_string(alloc)?;
            json!(in alloc; {"next_cursor": next, "ours": ours, "theirs": theirs})
        }
        None => json!(in alloc; {"ours": ours, "theirs": theirs}),
    }
}

/// The body for a page.
pub(crate) fn list_body(alloc: Global, page: &ShownPage<'_>) -> Result<String, AllocError>
    ensures { IfOk result
        (λ text. string_bytes text ≡ compact_text (list_json (page_shown page.now))) }
{
    list_value(alloc, page)?.to_string(alloc)
}

/// The body for a page with the caller's own locks apart.
pub(crate) fn split_body(alloc: Global, page: &SplitPage<'_>) -> Result<String, AllocError>
    ensures { IfOk result (λ text. string_bytes text ≡ compact_text (split_shown page.now)) }
{
    split_value(alloc, page)?.to_string(alloc)
}
