//! Why a command failed, and what to do: what is wrong with a file, an address or a socket that the command names.
//!
//! A fault says in one stable line what failed. [`explanation`] looks at what the command named, after it has failed, and
//! returns a further line for people. So no code that does the work of a command depends on it, and what it returns is
//! what it finds then: the cause may be gone.
#![tactic(auto)]

mod addresses;
mod contents_text;
mod control_sockets;
mod databases;
mod explanations;
mod files;
mod hints;
mod named;
mod paths;
mod refusals;
mod room;
mod values;

pub use explanations::explanation;
pub use named::Named;
pub use refusals::Refusals;
pub use room::{Room, room_beside};
pub use values::expected;
