//! The clients of a server: whose next message has arrived, who takes nothing of a reply, and who has to give way.
//!
//! Nothing here knows what is said over a connection.
#![tactic(auto)]

mod client;
mod place;
mod room;

pub use client::Client;
pub use place::{Cause, Ended};
pub use room::{LONGEST_LEAVING, Limits, ROUND, Room};
