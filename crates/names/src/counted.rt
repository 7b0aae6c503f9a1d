//! Adapts any reader of the standard library to a source, and any writer to a sink.

ghost use Rattle.std.specs.Prelude.{◌≡◌, ◌≤◌, ◌-◌};
ghost use Rattle.std.proofs.Common.{arith};
ghost use Rattle.names.specs.Streams.{cap_known, most_counted, most_handed_out};

use crate::streams::one_more;
use crate::{DeviceFault, Sink, Source};
use std::io::{self, Read, Write};

/// The most bytes that a source returns in its life.
const MOST: u64 = 1_099_511_627_776;

/// A reader or a writer, with the count of its failures.
///
/// As a source it returns at most 1,099,511,627,776 bytes and then the end, without asking the reader
/// again. An error counts as one failure, and so does a write that takes no byte of a piece that is not
/// empty.
#[derive(Debug, Drop)]
pub struct Counted<T> {
    inner: T,
    handed_out: u64,
    failures: u64,
    pub ghost in_bounds: { handed_out ≤ most_handed_out },
}

impl<T> Counted<T> {
    ghost use Rattle.names.specs.Counted.{device, handed_out, failures, Counts, read_of, write_of};

    /// Wraps `inner`. No bytes are returned yet, and no failure is counted.
    pub fn new(inner: T) -> Self
        ensures device { device result ≡ inner }
        ensures handed_out { handed_out result ≡ 0 }
        ensures failures { failures result ≡ 0 }
    {
        Counted {
            inner,
            handed_out: 0,
            failures: 0,
        }
    }

    /// Returns the reader or the writer.
    pub fn into_inner(self) -> T
        ensures { result ≡ device self }
    {
        let Counted { inner, .. } = self;
        inner
    }

    /// The result of a read for which the reader reported this. An error counts as one failure, and
    /// nothing else does.
    fn count_read(&mut self, reported: io::Result<usize>) -> Result<usize, DeviceFault>
        ensures result { result ≡ read_of reported }
        ensures failures { Counts (failures self.old) (failures self.new) result }
        ensures device { device self.new ≡ device self.old }
        ensures handed_out { handed_out self.new ≡ handed_out self.old }
    {
        match reported {
            Ok(n) => Ok(n),
            Err(_) => {
                self.failures = one_more(self.failures);
                Err(DeviceFault)
            }
        }
    }

    /// The result of a write of `offered` bytes for which the writer reported this. An error counts as one
    /// failure, and so does 0 bytes of some; nothing else does.
    fn count_write(
        &mut self,
        reported: io::Result<usize>,
        offered: usize,
    ) -> Result<usize, DeviceFault>
        ensures result { result ≡ write_of offered reported }
        ensures failures { Counts (failures self.old) (failures self.new) result }
        ensures device { device self.new ≡ device self.old }
    {
        match reported {
            Ok(n) if n > 0 || offered == 0 => Ok(n),
            _ => {
                self.failures = one_more(self.failures);
                Err(DeviceFault)
            }
        }
    }
}

impl<R: Read> Source for Counted<R> {
    ghost use Rattle.names.specs.Counted.{device, handed_out, failures};

    ghost left = { λ s. cap_known (most_handed_out - handed_out s) (R.remaining (device s)) };

    ghost budget = { λ s. most_handed_out - handed_out s };

    ghost failed = { λ s. failures s };

    ghost bounded = { λ s. Prim.omega arith };

    fn read(&mut self, piece: &mut [u8]) -> Result<usize, DeviceFault> {
        let room = MOST - self.handed_out;
        if room == 0 {
            return Ok(0);
        }
        let size = (piece.len() as u64).min(room) as usize;
        let reported = self.inner.read(&mut piece[..size]);
        let n = self.count_read(reported)?;
        self.handed_out += n as u64;
        Ok(n)
    }

    fn failures(&self) -> u64 {
        self.failures
    }
}

impl<W: Write> Sink for Counted<W> {
    ghost use Rattle.names.specs.Counted.{device, failures};

    ghost taken = { λ s. W.contents (device s) };

    ghost failed = { λ s. failures s };

    fn write(&mut self, piece: &[u8]) -> Result<usize, DeviceFault> {
        let reported = self.inner.write(piece);
        self.count_write(reported, piece.len())
    }

    fn failures(&self) -> u64 {
        self.failures
    }
}
