//! A machine that stops at each call of a file in turn. After its restart there is what was before, or what is after,
//! whole: the latter exactly if it was reported.

use crate::databases::Form;
use crate::files::{Disks, Done, Plan, copy_of, files_after, with_files};
use crate::running::{Located, Setting, located};
use crate::scene::Scene;
use crate::script::Step;
use crate::texts::Names;
use calls::Fault;
use sqlite::Files;

/// More calls than a case makes of any file.
const MANY: u64 = 2_000;

/// After how many calls each file fails.
#[derive(Clone, Copy)]
pub(crate) struct Limits {
    log: u64,
    db: u64,
    contents: u64,
}

impl Limits {
    /// No file fails.
    pub(crate) const NONE: Limits = Limits {
        log: u64::MAX,
        db: u64::MAX,
        contents: u64::MAX,
    };
}

/// A file of a database.
#[derive(Clone, Copy)]
enum Stopped {
    Log,
    Database,
    Contents,
}

impl Stopped {
    /// It fails after this number of calls.
    fn after(self, calls: u64) -> Limits {
        let mut limits = Limits::NONE;
        match self {
            Stopped::Log => limits.log = calls,
            Stopped::Database => limits.db = calls,
            Stopped::Contents => limits.contents = calls,
        }
        limits
    }
}

/// A case with a work: the files before it, its steps, and those that hold before it and after it.
#[derive(Drop)]
pub(crate) struct Work<'s> {
    pub setting: Setting<'s>,
    pub files: Disks,
    pub line: usize,
    pub work: &'s [Step],
    pub before: &'s [Step],
    pub after: &'s [Step],
}

impl Work<'_> {
    /// Copies of the files, which fail after these numbers of calls.
    pub(crate) fn copies(&self, limits: Limits) -> Result<Disks, Located> {
        let alloc = self.setting.alloc;
        let Disks { rows, contents } = &self.files;
        Ok(Disks {
            rows: Files {
                log: located(self.line, copy_of(alloc, &rows.log, limits.log))?,
                db: located(self.line, copy_of(alloc, &rows.db, limits.db))?,
            },
            contents: located(self.line, copy_of(alloc, contents, limits.contents))?,
        })
    }

    /// The files after a restart. An opening that failed has closed them, and has changed nothing that the next one
    /// finds.
    pub(crate) fn restarted(&self, left: Option<Disks>) -> Result<Disks, Located> {
        match left {
            Some(mut files) => {
                files.crash();
                Ok(files)
            }
            None => self.copies(Limits::NONE),
        }
    }

    /// Does the work over files that stop after these numbers of calls, and compares what there is after the restart.
    /// Returns whether the work was reported as done.
    fn try_stop(
        &self,
        scene: &mut Scene,
        names: &mut Names,
        limits: Limits,
    ) -> Result<bool, Located> {
        let copies = self.copies(limits)?;
        let plan = Plan::steps(self.work);
        let (left, done) = with_files(self.setting, copies, scene, names, plan, false);
        let Done { work, held: _ } = done;
        let is_done = match work {
            Ok(()) => true,
            Err((_, Fault::Stopped | Fault::Store(_))) => false,
            Err(differs) => return Err(differs),
        };
        let files = self.restarted(left)?;
        let plan = Plan::steps(if is_done { self.after } else { self.before });
        let (_, found) = with_files(self.setting, files, scene, names, plan, false);
        found.work?;
        Ok(is_done)
    }

    /// Stops the work at each call of a file in turn, until the work is done before the stop. Returns the number of
    /// calls.
    fn stop_at_each(
        &self,
        scene: &mut Scene,
        names: &mut Names,
        stopped: Stopped,
    ) -> Result<u64, Located> {
        for calls in 0..MANY {
            if self.try_stop(scene, names, stopped.after(calls))? {
                return Ok(calls);
            }
        }
        Err((self.line, Fault::Script("the work was never done")))
    }

    /// Stops the work at each call of the log, and of the database, both of which it has to make.
    fn stop_in_database(&self, scene: &mut Scene, names: &mut Names) -> Result<(), Located> {
        let log = self.stop_at_each(scene, names, Stopped::Log)?;
        let db = self.stop_at_each(scene, names, Stopped::Database)?;
        if log == 0 || db == 0 {
            return Err((self.line, Fault::Script("the work makes no call")));
        }
        Ok(())
    }
}

/// The steps of a case after `stop` or `try`: the work, those that hold before it, and those that hold after it.
fn parts(rest: &[Step]) -> Option<(&[Step], &[Step], &[Step])> {
    let (work, rest) = rest.split_at(rest.iter().position(|step| step.is("before"))?);
    let (_, rest) = rest.split_first()?;
    let (before, rest) = rest.split_at(rest.iter().position(|step| step.is("after"))?);
    let (_, after) = rest.split_first()?;
    Some((work, before, after))
}

/// The work of a case after the first steps, which are taken; and the scene.
pub(crate) fn work_after<'s>(
    setting: Setting<'s>,
    names: &mut Names,
    first: &'s [Step],
    step: &'s Step,
    rest: &'s [Step],
) -> Result<(Work<'s>, Scene), Located> {
    let Some((work, before, after)) = parts(rest) else {
        return Err((step.line, Fault::Script("a work has before and after")));
    };
    let (files, scene) = files_after(setting, names, first)?;
    let work = Work {
        setting,
        files,
        line: step.line,
        work,
        before,
        after,
    };
    Ok((work, scene))
}

/// Takes the first steps over new files, and stops the rest at each call of each file.
pub(crate) fn stop(
    setting: Setting<'_>,
    names: &mut Names,
    first: &[Step],
    step: &Step,
    rest: &[Step],
) -> Result<(), Located> {
    let (work, mut scene) = work_after(setting, names, first, step, rest)?;
    work.stop_in_database(&mut scene, names)?;
    if setting.form == Form::File {
        let _ = work.stop_at_each(&mut scene, names, Stopped::Contents)?;
    }
    Ok(())
}
