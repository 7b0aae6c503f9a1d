//! What an operator's socket has not taken yet of a reply.

ghost use Rattle.std.specs.Prelude.{◌≡◌, ◌≤◌, ◌++◌, [], length, IfOk, OnErr, OnOk};

use std::alloc::{AllocError, Global};
use std::io::{self, ErrorKind, Write};
use std::os::unix::net::UnixStream;

/// The most bytes that are sent to an operator at a time.
const PIECE: usize = 262_144;

/// What an operator's socket has not taken yet of a reply.
#[derive(Drop)]
pub struct Unsent {
    bytes: Vec<u8>,
    /// How many of them were sent.
    sent: usize,
    pub ghost in_bounds: { sent ≤ length bytes.items },
}

/// Whether a write failed only since it would have to wait.
fn is_pause(kind: ErrorKind) -> bool {
    matches!(kind, ErrorKind::WouldBlock | ErrorKind::Interrupted)
}

/// Writes bytes, and does not wait. Returns how many the socket took: none if it has no room.
fn write_now(stream: &UnixStream, bytes: &[u8]) -> io::Result<usize>
    ensures { IfOk result (λ count. count ≤ length bytes.now) }
{
    stream.set_nonblocking(true)?;
    let mut stream = stream;
    match stream.write(bytes) {
        Err(error) if is_pause(error.kind()) => Ok(0),
        written => written,
    }
}

impl Unsent {
    ghost use Rattle.outbox.specs.Unsent.{HasSent, rest_of};

    /// Nothing.
    pub fn new(alloc: Global) -> Unsent
        ensures { rest_of result ≡ [] }
    {
        Unsent {
            bytes: Vec::new(alloc),
            sent: 0,
        }
    }

    /// The bytes that were not sent.
    pub fn as_slice(&self) -> &[u8]
        ensures { result.now ≡ rest_of self.now }
    {
        &self.bytes.as_slice()[self.sent..]
    }

    /// Adds bytes to be sent after the others.
    ///
    /// # Errors
    ///
    /// Fails if there is no memory, and adds none of them.
    pub fn push(&mut self, bytes: &[u8]) -> Result<(), AllocError>
        ensures ok { OnOk result (rest_of self.new ≡ rest_of self.old ++ bytes.now) }
        ensures err { OnErr result (rest_of self.new ≡ rest_of self.old) }
    {
        self.bytes.extend_from_slice(bytes)
    }

    /// Sends what the operator's socket takes at once, at most 256 KiB. Returns whether it took some.
    ///
    /// # Errors
    ///
    /// Fails if the operator has closed the connection. All bytes are left then.
    pub fn send(&mut self, operator: &UnixStream) -> io::Result<bool>
        ensures { HasSent (rest_of self.old) (rest_of self.new) result }
    {
        let rest = self.as_slice();
        let count = write_now(operator, &rest[..rest.len().min(PIECE)])?;
        self.sent += count;
        if self.sent == self.bytes.len() {
            self.sent = 0;
            self.bytes.clear();
        }
        Ok(count > 0)
    }
}
