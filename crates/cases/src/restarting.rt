//! A case whose machine restarts, or whose process ends, between its steps.

use crate::files::{after_steps, files_after};
use crate::running::{Located, Setting, located};
use crate::script::Step;
use crate::texts::Names;
use calls::Fault;

/// Whether the database is opened again at this step.
pub(crate) fn is_restart(step: &Step) -> bool {
    step.is("restart") || step.is("reopen")
}

/// Takes the steps. At `restart` what was never synced is lost, at `reopen` nothing is; the database is then opened
/// again.
pub(crate) fn run_over_files(
    setting: Setting<'_>,
    names: &mut Names,
    steps: &[Step],
) -> Result<(), Located> {
    let (mut files, mut scene) = files_after(setting, names, &[])?;
    let mut rest = steps;
    for _ in 0..steps.len() {
        let at = rest.iter().position(is_restart).unwrap_or(rest.len());
        let (work, after) = rest.split_at(at);
        files = after_steps(setting, files, &mut scene, names, work, false)?;
        let Some((step, next)) = after.split_first() else {
            return Ok(());
        };
        if step.is("restart") {
            files.crash();
        }
        rest = next;
    }
    located(0, Err(Fault::Script("a restart has steps after it")))
}
