//! The world of a database with a file of contents: in which one it is opened, and what a stop leaves of both files.
#![tactic(auto)]

mod fault;
mod opening;

pub use fault::BesideFault;
pub use opening::{open_beside, start_beside, stop_law};
