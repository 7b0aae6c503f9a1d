//! The HTTP messages on a connection: splits requests from its bytes, and writes replies to it (RFC 9112).
//!
//! A client sends its requests one after another. Each is a head, which is a few lines of text, and perhaps a body of
//! bytes. A [`Conn`] reads them from a source: [`Conn::next_head`] returns an [`Inflow`] for each message, whose
//! [`Head`] has the method, the target, the fields, and whether the connection ends after the message. The body is read
//! through the `Inflow`, in pieces ([`Inflow::body_piece`]) or whole ([`Inflow::body_whole`]). [`write_reply`] sends a
//! [`ReplyHead`] and a body.
//!
//! Memory is allocated in two places: [`Conn::new`] takes the buffer of a connection once, and
//! [`Inflow::body_whole`] takes the size of a body. This crate knows no routes. [`first_head`] finds the
//! head at the front of bytes that are in memory already.
#![tactic(auto)]

mod accept;
mod buffer;
mod connection;
mod cut;
mod framing;
mod head;
mod inflow;
mod ows;
mod reading;
mod reply;
mod rules;
mod write;

pub use connection::{Conn, Stop};
pub use cut::{Cut, FIELD_LIMIT, HEAD_LIMIT, first_head, front_of};
pub use framing::LARGEST_FORM;
pub use head::Head;
pub use inflow::{Inflow, WholeFault};
pub use names::WriteFault;
pub use reply::{Content, ReplyHead};
pub use rules::HeadRule;
pub use write::write_reply;
