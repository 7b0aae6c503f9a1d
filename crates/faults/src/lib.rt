//! Why a command failed: the line that is printed, and the exit status.
//!
//! A server reports to an operator what the same command reports over files, so both have the same faults.
#![tactic(auto)]

mod contents_cause;
mod ending;
mod faults;

pub use contents_cause::ContentsCause;
pub use ending::{is_good, print_fault, refuse, status_after};
pub use faults::Fault;
