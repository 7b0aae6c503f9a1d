//! The connection of an operator.

use crate::unsent::Unsent;
use std::cell::Cell;
use std::os::unix::net::UnixStream;

/// An operator who has connected to the control socket, with what his socket has not taken yet of his reply. Only who has the
/// [`Outbox`](crate::Outbox) of the server that he called can read from him or write to him.
#[derive(Drop)]
pub struct OperatorStream {
    pub(crate) stream: UnixStream,
    /// `None` if nothing was sent to him yet.
    pub(crate) unsent: Cell<Option<Unsent>>,
}

impl OperatorStream {
    /// The operator at the other end of the stream.
    pub fn new(stream: UnixStream) -> OperatorStream {
        OperatorStream {
            stream,
            unsent: Cell::new(None),
        }
    }
}
