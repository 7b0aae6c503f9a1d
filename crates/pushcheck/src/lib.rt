//! Push checks: for each path of a push, whether its user may push it.
//!
//! An administrator runs [`check`] over the paths that a push changes, for example from a hook of the Git
//! server. A path is refused if the policy denies the push, or if another user has locked it.
#![tactic(auto)]

mod checking;
mod pushes;
mod verdicts;

pub use checking::check;
pub use verdicts::PushVerdict;
