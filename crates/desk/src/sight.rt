//! Which of many locks of a repository a user sees.

ghost use Rattle.std.specs.Prelude.{◌≡◌, IfOk};
ghost use Rattle.model.specs.Callers.{is_allowed, push_question, sees};
ghost use Rattle.model.specs.Policy.{decide};
ghost use Rattle.model.specs.declared.Right.TheVariants as right;
ghost use Rattle.names.specs.Names.{ref_text};
ghost use Rattle.locks.specs.Finding.{lock_seen};
ghost use Rattle.desk.specs.Askers.{asker_policy, asker_repo, asker_user, AreRowsFor};

use crate::rights::{Asker, allow_on, is_own, rows_for};
use locks::Lock;
use model::Right;
use policy::{ApplicableRows, Verdict};
use std::alloc::{AllocError, Global};

/// The rows of the policy that decide which locks a user sees.
#[derive(Debug, Drop)]
pub(crate) struct Sight<'a> {
    asker: Asker<'a>,
    list: ApplicableRows<'a>,
    lock: ApplicableRows<'a>,
    force: ApplicableRows<'a>,
    push: ApplicableRows<'a>,
    pub ghost decide_list: { AreRowsFor asker right.List list },
    pub ghost decide_lock: { AreRowsFor asker right.Lock lock },
    pub ghost decide_force: { AreRowsFor asker right.Force force },
    pub ghost decide_push: { AreRowsFor asker right.Push push },
}

impl<'a> Sight<'a> {
    /// Chooses the rows for the user.
    ///
    /// # Errors
    ///
    /// Fails if memory ran out.
    pub fn new(alloc: Global, asker: &Asker<'a>) -> Result<Sight<'a>, AllocError>
        ensures { IfOk result (λ sight. sight.asker ≡ asker.entry.now) }
    {
        let list = rows_for(alloc, asker, Right::List)?;
        let lock = rows_for(alloc, asker, Right::Lock)?;
        let force = rows_for(alloc, asker, Right::Force)?;
        let push = rows_for(alloc, asker, Right::Push)?;
        Ok(Sight {
            asker: *asker,
            list,
            lock,
            force,
            push,
        })
    }

    /// Whether the user may push to the ref of the lock.
    fn may_push_to(&self, row: &Lock) -> bool
        ensures { result ≡ is_allowed (decide (asker_policy self.now.asker)
            (push_question (asker_user self.now.asker) (asker_repo self.now.asker) (ref_text row.now.ref_name))) }
    {
        let verdict = self.push.decide(Some(&row.ref_name), None);
        matches!(verdict, Verdict::Allow(_))
    }

    /// Whether the user sees the lock.
    pub fn sees(&self, row: &Lock) -> bool
        ensures { result ≡ sees (asker_policy self.now.asker) (asker_user self.now.asker)
            (lock_seen (asker_repo self.now.asker) row.now) }
    {
        is_own(&self.asker, row)
            || allow_on(&self.list, row)
            || allow_on(&self.lock, row)
            || allow_on(&self.force, row)
            || self.may_push_to(row)
    }
}
