//! Where the program writes what it prints.

use std::io::{self, Write};

/// Writes to a writer, and flushes it after each write: so a write that failed is seen at once, and a client that waits
/// for a reply gets it.
#[derive(Drop)]
pub struct Flushed<W> {
    output: W,
}

impl<W> Flushed<W> {
    /// Wraps the writer.
    pub fn new(output: W) -> Flushed<W> {
        Flushed { output }
    }
}

impl<W: Write> Write for Flushed<W> {
    fn write(&mut self, piece: &[u8]) -> io::Result<usize> {
        let count = self.output.write(piece)?;
        self.output.flush()?;
        Ok(count)
    }

    fn flush(&mut self) -> io::Result<()> {
        self.output.flush()
    }
}
