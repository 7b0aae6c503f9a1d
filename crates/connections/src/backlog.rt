//! What was written to a client, and is not sent yet.

ghost use Rattle.std.specs.Prelude.{◌≡◌, ◌≤◌, ◌++◌, [], drop, false, length, nat_eq};
ghost use Rattle.std.specs.Bool.{OnTrue};

use std::alloc::Global;

/// The most bytes that are kept of what is written in a turn.
const MOST: usize = 2_097_152;

/// What was written to a client, and is not sent yet.
#[derive(Drop)]
pub struct Backlog {
    alloc: Global,
    bytes: Vec<u8>,
    /// How many of them were sent.
    sent: usize,
    pub ghost in_bounds: { sent ≤ length bytes.items },
}

impl Backlog {
    ghost use Rattle.connections.specs.Backlog.{bytes_left};

    /// Nothing.
    pub fn new(alloc: Global) -> Backlog
        ensures { bytes_left result ≡ [] }
    {
        Backlog {
            alloc,
            bytes: Vec::new(alloc),
            sent: 0,
        }
    }

    /// The bytes that are not sent yet.
    pub fn as_slice(&self) -> &[u8]
        ensures { result.now ≡ bytes_left self.now }
    {
        &self.bytes.as_slice()[self.sent..]
    }

    /// How many bytes are in memory.
    pub fn held(&self) -> usize {
        self.bytes.len()
    }

    /// Whether all are sent.
    pub fn is_empty(&self) -> bool
        ensures { result ≡ nat_eq self.now.sent (length self.now.bytes.items) }
    {
        self.sent == self.bytes.len()
    }

    /// Adds bytes to be sent after the others. Returns whether they were added: all of them, or none if that were too many, or
    /// if there is no memory.
    pub fn push(&mut self, bytes: &[u8]) -> bool
        ensures added { OnTrue result (bytes_left self.new ≡ bytes_left self.old ++ bytes.now) }
        ensures refused { (result ≡ false) → bytes_left self.new ≡ bytes_left self.old }
    {
        let size = self.bytes.len().saturating_add(bytes.len());
        size <= MOST && self.bytes.extend_from_slice(bytes).is_ok()
    }

    /// Notes that this many more bytes were sent. The memory is freed after the last one.
    pub fn advance(&mut self, count: usize)
        ensures { bytes_left self.new ≡ drop count (bytes_left self.old) }
    {
        let left = self.bytes.len() - self.sent;
        self.sent += count.min(left);
        if self.is_empty() {
            *self = Backlog::new(self.alloc);
        }
    }
}
