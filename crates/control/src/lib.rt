//! The messages of the control socket of `custody serve`, as bytes.
//!
//! A running server alone opens the database. A program of its operator sends it a command over a Unix
//! socket, a [`Request`]: the words of the command and its standard input. The server answers with frames:
//! pieces of what the command writes, each a [`Stream`] and some bytes, and then the exit [`Status`]. This
//! crate turns both into bytes ([`request_bytes`], [`piece_head`], [`Status::code`]) and reads them from
//! bytes ([`request_size`], [`read_request`], [`frame_start`], [`piece_size`]). Each request and each reply
//! begins with the byte [`VERSION`]; a program of another version gets the [`refusal_bytes`]. It reads and
//! writes no socket.
#![tactic(auto)]

mod fields;
mod laws;
mod reply;
mod request;
mod status;
mod version;

pub use laws::message_law;
pub use reply::{LONGEST_PIECE, Start, Stream, frame_start, piece_head, piece_size};
pub use request::{
    LONGEST_REQUEST, MOST_WORDS, PrefixFault, Request, RequestFault, read_request, request_bytes,
    request_size,
};
pub use status::Status;
pub use version::{VERSION, refusal_bytes};
