//! Replies to operators whose sockets do not take all of them at once: what is left is kept in memory, and sent as the
//! operators read.
//!
//! [`OperatorStream`] keeps what is left of its reply, and [`Outbox`] sends those whose commands have ended. Nobody waits for
//! them.
#![tactic(auto)]

mod operator_stream;
mod outbox;
mod unsent;

pub use operator_stream::OperatorStream;
pub use outbox::Outbox;
