//! The sockets of a server: where it listens, and whether a client or an operator is answered next.
//!
//! Nothing here knows what is said over a socket.
#![tactic(auto)]

mod listening;
mod queue;

pub use clients::{Cause, Client, Ended, Limits};
pub use connections::{Course, Extent, Framing, Front, MessageKind, PatientReader, PatientWriter};
pub use listening::listen;
pub use queue::{Caller, Queue};
