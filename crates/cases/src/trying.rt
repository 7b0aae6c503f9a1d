//! A work that is done once, while a test refuses some of its memory (tests/server/allocations.py). If it is refused,
//! the store has what it had before, and after a restart that or what it has after the work, whole.

use crate::files::{Disks, Done, Plan, Taken, with_files};
use crate::running::{Located, Setting};
use crate::scene::Scene;
use crate::script::Step;
use crate::stopping::{Limits, Work, work_after};
use crate::texts::Names;
use calls::Fault;

/// Whether this is a difference, not a failure of the store.
fn differs(taken: &Taken) -> bool {
    matches!(taken, Err((_, Fault::Differs(_) | Fault::Script(_))))
}

/// Judges a work that failed: how it failed, what the open store then had, whether the store may be used, and what there
/// is after a restart.
///
/// The script's own memory may be refused before the work, or after it. The store is not read after a sync that failed.
fn judge_refusal(
    line: usize,
    work: Located,
    held: Taken,
    is_usable: bool,
    again: Taken,
) -> Result<(), Located> {
    if !matches!(work.1, Fault::Memory | Fault::Stopped | Fault::Store(_)) {
        return Err(work);
    }
    let is_of_script = matches!(work.1, Fault::Memory);
    if !is_of_script && (is_usable || differs(&held)) {
        held?;
    }
    again?;
    Err((line, Fault::Refused))
}

impl Work<'_> {
    /// What there is after a restart: what these steps say, or what the others do.
    fn expect_one(
        &self,
        files: Disks,
        scene: &mut Scene,
        names: &mut Names,
        steps: &[Step],
        others: &[Step],
    ) -> Taken {
        let plan = Plan::steps(steps);
        let (files, found) = with_files(self.setting, files, scene, names, plan, false);
        let Done { work, held: _ } = found;
        if !differs(&work) {
            return work;
        }
        let Some(files) = files else {
            return work;
        };
        let plan = Plan::steps(others);
        let (_, found) = with_files(self.setting, files, scene, names, plan, false);
        found.work
    }

    /// Compares what there is without the work.
    fn expect_before(&self, scene: &mut Scene, names: &mut Names) -> Taken {
        let copies = self.copies(Limits::NONE)?;
        let plan = Plan::steps(self.before);
        let (_, found) = with_files(self.setting, copies, scene, names, plan, false);
        found.work
    }

    /// Does the work once, and compares what there is then, and after a restart.
    fn try_once(&self, scene: &mut Scene, names: &mut Names) -> Result<(), Located> {
        self.expect_before(scene, names)?;
        let copies = self.copies(Limits::NONE)?;
        let plan = Plan {
            work: self.work,
            done: self.after,
            refused: self.before,
            is_marked: true,
        };
        let (left, done) = with_files(self.setting, copies, scene, names, plan, false);
        let is_usable = match &left {
            Some(files) => files.may_be_used(),
            None => false,
        };
        let files = self.restarted(left)?;
        let Done { work, held } = done;
        match work {
            Ok(()) => {
                held?;
                self.expect_one(files, scene, names, self.after, self.after)
            }
            Err(refused) => {
                let again = self.expect_one(files, scene, names, self.before, self.after);
                judge_refusal(self.line, refused, held, is_usable, again)
            }
        }
    }
}

/// Takes the first steps over new files, and tries the rest once.
pub(crate) fn try_work(
    setting: Setting<'_>,
    names: &mut Names,
    first: &[Step],
    step: &Step,
    rest: &[Step],
) -> Result<(), Located> {
    let (work, mut scene) = work_after(setting, names, first, step, rest)?;
    work.try_once(&mut scene, names)
}
