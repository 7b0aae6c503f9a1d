//! Counts the bytes of a turn.

use std::cell::Cell;
use std::io::{self, Read, Write};

/// A reader or a writer whose bytes are counted.
#[derive(Drop)]
pub(crate) struct Metered<'a, T> {
    inner: T,
    /// How many bytes were read, or written.
    count: &'a Cell<u64>,
}

impl<'a, T> Metered<'a, T> {
    /// Counts the bytes in this cell.
    pub(crate) fn new(inner: T, count: &'a Cell<u64>) -> Metered<'a, T> {
        Metered { inner, count }
    }
}

/// Adds to a count.
fn add(count: &Cell<u64>, more: usize) {
    count.set(count.get().saturating_add(more as u64));
}

impl<T: Read> Read for Metered<'_, T> {
    fn read(&mut self, piece: &mut [u8]) -> io::Result<usize> {
        let read = self.inner.read(piece)?;
        add(self.count, read);
        Ok(read)
    }
}

impl<T: Write> Write for Metered<'_, T> {
    fn write(&mut self, piece: &[u8]) -> io::Result<usize> {
        let written = self.inner.write(piece)?;
        add(self.count, written);
        Ok(written)
    }

    fn flush(&mut self) -> io::Result<()> {
        self.inner.flush()
    }
}
