//! The worlds that a database represents: how the rows of the tables correspond to the world of the definitions,
//! which world each change of the rows leads to, what a stop leaves of it, and the world of a database
//! when it is opened.
#![tactic(auto)]

mod laws;
mod opening;

pub use laws::{bound_law, same_law};
pub use opening::{migrate, open_from, start, stop_law};
