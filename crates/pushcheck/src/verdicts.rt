//! The verdict on a path of a push.

ghost use Rattle.std.specs.Prelude.{◌≡◌, ℕ, List, option_map};
ghost use Rattle.names.specs.Names.{user_text};
ghost use Rattle.model.specs.PushChecks.{verdict_by_lock};
ghost use Rattle.locks.specs.Finding.{lock_seen};
ghost use Rattle.pushcheck.specs.Verdicts.{verdict_view};

use locks::Lock;
use names::{LockId, UserName};

/// Whether a user may push a path.
#[derive(Debug, Drop)]
pub enum PushVerdict {
    /// The policy denies it, by the row with this number; 0 if no row matches.
    Denied(u32),
    /// Another user has locked the path: the owner and the id of the lock.
    Locked(UserName, LockId),
    /// The path may be pushed.
    Ok,
}

/// The verdict of the lock on the path, if there is one: it is in the way of every user but its owner.
pub(crate) fn verdict_by_lock(user: &UserName, found: Option<Lock>) -> PushVerdict
    ensures { (repo : List ℕ) → verdict_view result
        ≡ verdict_by_lock (user_text user.now) (option_map (lock_seen repo) found) }
{
    match found {
        None => PushVerdict::Ok,
        Some(row) => {
            if row.owner.as_str() == user.as_str() {
                PushVerdict::Ok
            } else {
                PushVerdict::Locked(row.owner, row.id)
            }
        }
    }
}
