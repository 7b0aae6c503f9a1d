//! Copies a database into a new one of the other layout: what that one does not have yet.
//!
//! What was copied is established afterwards, by a comparison of both (`compared`), so the contracts here say little of
//! it. They say that the old database is only read.
#![tactic(auto)]

mod continuing;
mod fault;
mod objects;
mod rows;

pub use continuing::continues;
pub use fault::MoveFault;
pub use objects::{Progress, copy_to_places, copy_to_rows};
pub use rows::copy_rows;
