//! A lock as a client sees it, and the bodies that show one (Git LFS API, File Locking, "Create Lock"
//! and "Delete Lock").

ghost use Rattle.std.specs.Prelude.{◌≡◌, IfOk, string_bytes};
ghost use Rattle.serde_json.specs.View.{view};
ghost use Rattle.serde_json.specs.Written.{compact_text};
ghost use Rattle.model.specs.Replies.{lock_data, lock_json, conflict_json};
ghost use Rattle.forms.specs.ShownLocks.{data_of_texts, lock_shown};

use crate::answer::rule_message;
use names::{LockId, LockPath, Moment, Rule, UserName, moment_text};
use serde_json::{Value, json};
use std::alloc::{AllocError, Global};

/// The part of a lock that a client sees: neither its repository nor its ref.
#[derive(Clone, Copy, Debug)]
pub struct ShownLock<'a> {
    /// Its number in the repository; written as a string.
    pub id: LockId,
    /// When it was made; written as `2016-05-17T15:49:06Z`.
    pub locked_at: Moment,
    /// Who made it.
    pub owner: &'a UserName,
    /// The locked path.
    pub path: &'a LockPath,
}

/// The parts of a lock, as the texts in its JSON.
#[derive(Clone, Copy)]
struct LockTexts<'a> {
    id: &'a str,
    locked_at: &'a str,
    owner: &'a str,
    path: &'a str,
}

/// The JSON value of the lock with these texts.
fn value_of_texts(alloc: Global, lock: &LockTexts<'_>) -> Result<Value, AllocError>
    ensures { IfOk result (λ value. view value ≡ data_of_texts lock.now) }
{
    json!(in alloc; {"id": lock.id, "locked_at": lock.locked_at, "owner": {"name": lock.owner}, "path": lock.path})
}

/// The JSON value of the lock.
pub(crate) fn lock_value(alloc: Global, lock: &ShownLock<'_>) -> Result<Value, AllocError>
    ensures { IfOk result (λ value. view value ≡ lock_data (lock_shown lock.now)) }
{
    let id = lock.id.to_string(alloc)?;
    let locked_at = moment_text(alloc, lock.locked_at)?;
    let texts = LockTexts {
        id: id.as_str(),
        locked_at: locked_at.as_str(),
        owner: lock.owner.as_str(),
        path: lock.path.as_str(),
    };
    value_of_texts(alloc, &texts)
}

/// The JSON value with the lock.
fn locked_value(alloc: Global, lock: &ShownLock<'_>) -> Result<Value, AllocError>
    ensures { IfOk result (λ value. view value ≡ lock_json (lock_shown lock.now)) }
{
    let lock = lock_value(alloc, lock)?;
    json!(in alloc; {"lock": lock})
}

/// The JSON value with the lock and the message of L1.
fn held_value(alloc: Global, lock: &ShownLock<'_>) -> Result<Value, AllocError>
    ensures { IfOk result (λ value. view value ≡ conflict_json (lock_shown lock.now)) }
{
    let lock = lock_value(alloc, lock)?;
    let message = rule_message(alloc, Rule::L1)?;
    json!(in alloc; {"lock": lock, "message": message})
}

/// The body for a lock that was made or released.
pub(crate) fn lock_body(alloc: Global, lock: &ShownLock<'_>) -> Result<String, AllocError>
    ensures { IfOk result
        (λ text. string_bytes text ≡ compact_text (lock_json (lock_shown lock.now))) }
{
    locked_value(alloc, lock)?.to_string(alloc)
}

/// The body for a path that is already locked.
pub(crate) fn held_body(alloc: Global, lock: &ShownLock<'_>) -> Result<String, AllocError>
    ensures { IfOk result
        (λ text. string_bytes text ≡ compact_text (conflict_json (lock_shown lock.now))) }
{
    held_value(alloc, lock)?.to_string(alloc)
}
