//! Makes locks.

ghost use Rattle.std.specs.Prelude.{◌≡◌};
ghost use Rattle.refinement.specs.Left.{From};
ghost use Rattle.locks.specs.Creating.{Creates};
ghost use Rattle.locks.specs.declared.creating.LockFault.TheVariants.{Store as by_store};
ghost use Rattle.tables.specs.declared.fault.StoreFault.TheVariants.{Memory as WantsMemory};

use std::alloc::{AllocError, Global};
use store::Store;
use tables::{Creation, LockRow, NewLock, StoreFault};
use thiserror::Error;

/// Why no lock was made. The tables are unchanged.
#[derive(Debug, Drop, Error)]
pub enum LockFault {
    /// This lock holds the path.
    #[error("the path is already locked")]
    Held(LockRow),
    /// The repository has made 4,294,967,295 locks.
    #[error("no lock id is left")]
    UsedUp,
    /// The store refused, or memory ran out; a stop may still leave the lock.
    #[error("{0}")]
    Store(StoreFault),
}

impl From<StoreFault> for LockFault {
    ghost from_gives = { λ refused fault. fault ≡ by_store refused };

    fn from(fault: StoreFault) -> LockFault {
        LockFault::Store(fault)
    }
}

impl From<AllocError> for LockFault {
    ghost from_gives = { λ _ fault. fault ≡ by_store WantsMemory };

    fn from(_error: AllocError) -> LockFault {
        LockFault::Store(StoreFault::Memory)
    }
}

/// Makes a lock under the repository's next id, unless its path is locked or no id is left: the result is the verdict of
/// the definitions on its place. Returns the lock, whose names are copied before it is made.
///
/// # Errors
///
/// `Held` and `UsedUp` by the verdict, and `Store`. They leave the tables unchanged.
pub fn create<S: Store>(
    alloc: Global,
    store: &mut S,
    lock: &NewLock<'_>,
) -> Result<LockRow, LockFault>
    ensures { From S.State store.old store.new (λ world.
        Creates S.State world lock.entry.now store.old store.new result) }
{
    let ref_name = lock.ref_name.to_owned(alloc)?;
    let path = lock.path.to_owned(alloc)?;
    let owner = lock.owner.to_owned(alloc)?;
    let creation = store.create_lock(lock)?;
    match creation {
        Creation::Created(id) => Ok(LockRow {
            id,
            ref_name,
            path,
            owner,
            moment: lock.moment,
        }),
        Creation::Held(held) => Err(LockFault::Held(held)),
        Creation::UsedUp => Err(LockFault::UsedUp),
    }
}
