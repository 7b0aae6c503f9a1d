//! The connection of a client, without what becomes of it: how long its messages are, what has arrived and is not handed out,
//! what was written and is not sent, and how long a read or a write waits.
//!
//! Nothing here knows what is said over a connection.
#![tactic(auto)]

mod backlog;
mod extent;
mod front;
mod patience;

pub use backlog::Backlog;
pub use extent::{Extent, Framing, MessageKind};
pub use front::Front;
pub use patience::{Course, PatientReader, PatientWriter, is_pause, prepare, write_now};
