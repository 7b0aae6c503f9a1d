//! Sources and sinks of bytes.

ghost use Rattle.std.specs.Prelude.{◌≡◌, ℕ, ◌+◌, ◌<◌, ◌≤◌, List, Option, Some, None, length, IfOk, OnOk, OnErr};
ghost use Rattle.std.specs.Borrow.{GName};
ghost use Rattle.std.specs.Io.KnownBytes.{ReadConsumes, WriteAppends};
ghost use Rattle.names.specs.Streams.{HasGrown, most_counted};

use thiserror::Error;

/// A device failed to read or to write in this call.
#[derive(Clone, Copy, Debug, PartialEq, Eq, Error)]
#[error("the device failed")]
pub struct DeviceFault;

/// A source of bytes.
///
/// A source returns finitely many bytes, so a loop that reads it to its end terminates.
pub trait Source {
    /// The bytes that are left, if they are known.
    ghost left: { Self → Option (List ℕ) };

    /// The name of the reference, if the source is one. A read keeps it, so the lender of the source can
    /// identify it when it comes back.
    ghost reference: { Self → Option GName } = { λ _. None };

    /// An upper bound of the bytes that are still to be returned.
    ghost budget: { Self → ℕ };

    /// The number of failed reads so far.
    ghost failed: { Self → ℕ };

    /// Reads some bytes into the front of `piece`, and returns how many.
    ///
    /// 0 for a piece with room is the end: if the bytes are known, none is left. The rest of `piece` is
    /// unspecified.
    ///
    /// # Errors
    ///
    /// A [`DeviceFault`] is counted once, and leaves the remaining bytes unchanged.
    fn read(&mut self, piece: &mut [u8]) -> Result<usize, DeviceFault>
        ensures within { IfOk result (λ n. n ≤ length piece.new) }
        ensures bytes { ReadConsumes (left self.old) (left self.new) result piece.new }
        ensures same_reference { reference self.new ≡ reference self.old }
        ensures budget { IfOk result (λ n. n + budget self.new ≤ budget self.old) }
        ensures budget_err { OnErr result (budget self.new ≤ budget self.old) }
        ensures good { OnOk result (failed self.new ≡ failed self.old) }
        ensures fault { OnErr result (HasGrown (failed self.old) (failed self.new)) };

    /// The number of failed reads so far. At its maximum the count stays.
    fn failures(&self) -> u64
        ensures { result ≡ failed self.now };

    /// A count of the bytes, or of messages in them, fits in 64 bits.
    ghost bounded: { (source : Self) → budget source ≤ most_counted };
}

/// A sink for bytes.
pub trait Sink {
    /// The bytes taken so far, if they are known.
    ghost taken: { Self → Option (List ℕ) };

    /// The number of failed writes so far.
    ghost failed: { Self → ℕ };

    /// Takes some bytes from the front of `piece`, and returns how many: at least one, unless the piece is
    /// empty.
    ///
    /// # Errors
    ///
    /// A [`DeviceFault`] is counted once, and leaves the bytes taken so far unchanged.
    fn write(&mut self, piece: &[u8]) -> Result<usize, DeviceFault>
        ensures within { IfOk result (λ n. n ≤ length piece.now) }
        ensures some { IfOk result (λ n. 0 < length piece.now → 0 < n) }
        ensures bytes { WriteAppends (taken self.old) (taken self.new) result piece.now }
        ensures good { OnOk result (failed self.new ≡ failed self.old) }
        ensures fault { OnErr result (HasGrown (failed self.old) (failed self.new)) };

    /// The number of failed writes so far. At its maximum the count stays.
    fn failures(&self) -> u64
        ensures { result ≡ failed self.now };
}

/// The count of failures after one more. At its maximum it stays.
pub(crate) fn one_more(failures: u64) -> u64
    ensures { HasGrown failures result }
{
    failures.saturating_add(1)
}

/// A borrowed source.
impl<S: Source> Source for &mut S {
    ghost left = { λ s. S.left s.now };

    ghost reference = { λ s. Some s.ghost_name };

    ghost budget = { λ s. S.budget s.now };

    ghost failed = { λ s. S.failed s.now };

    ghost bounded = { λ s. S.bounded s.now };

    fn read(&mut self, piece: &mut [u8]) -> Result<usize, DeviceFault> {
        (**self).read(piece)
    }

    fn failures(&self) -> u64 {
        (**self).failures()
    }
}

/// A borrowed sink.
impl<K: Sink> Sink for &mut K {
    ghost taken = { λ k. K.taken k.now };

    ghost failed = { λ k. K.failed k.now };

    fn write(&mut self, piece: &[u8]) -> Result<usize, DeviceFault> {
        (**self).write(piece)
    }

    fn failures(&self) -> u64 {
        (**self).failures()
    }
}
