//! The machine that a server runs on: who calls, the time, random bytes, what clients and operators send and are sent.
//!
//! [`Machine`] is any such machine, and its contract records what it returns. [`Sockets`] is the one of the program. The
//! commands over files use the same functions for the time, for random bytes and for the policy file.
#![tactic(auto)]

mod control_socket;
mod conversation;
mod framing;
mod machine;
mod moments;
mod policies;
mod random;
mod traffic;

pub use control_socket::ControlSocket;
pub use conversation::{Conversation, Talked};
pub use machine::{Machine, Sockets};
pub use moments::moment;
pub use policies::{policy_line, read_described, read_policy};
pub use random::read_random;
