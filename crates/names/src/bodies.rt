//! The bodies of messages, read in pieces.

ghost use Rattle.std.specs.Prelude.{◌≡◌, ◌≢◌, ℕ, ◌+◌, ◌<◌, ◌≤◌, List, [], ◌++◌, length, take, Err, IfOk, OnErr};
ghost use Rattle.names.specs.Streams.{HasGrown};

use thiserror::Error;

/// Why bytes of a body were not read.
#[derive(Clone, Copy, Debug, PartialEq, Eq, Error)]
pub enum BodyFault {
    /// The input ended before the body did.
    #[error("the input ended before the body did")]
    Ended,
    /// A read failed.
    #[error("a read failed")]
    Device,
}

/// The body of a message, whose size is known, and which is read in pieces.
pub trait Body {
    /// The number of bytes that were not read.
    ghost size: { Self → ℕ };

    /// The number of failed reads so far.
    ghost failed: { Self → ℕ };

    /// Reads led from one state to another, and returned these bytes.
    ghost moves: { Self → Self → List ℕ → Type 0 };

    /// No byte of the body waits to be read.
    ghost is_drained: { Self → Type 0 };

    /// The input has ended.
    ghost is_ended: { Self → Type 0 };

    /// Returns the number of bytes that were not read.
    fn left(&self) -> u64
        ensures { result ≡ size self.now };

    /// Reads some bytes into the front of `piece`, and returns how many.
    ///
    /// 0 for a piece with room is the end of the body. The rest of `piece` is unspecified.
    ///
    /// # Errors
    ///
    /// - [`BodyFault::Ended`]: the input ended before the body did.
    /// - [`BodyFault::Device`]: a read failed, and is counted once.
    ///
    /// In both cases no byte was read.
    fn piece(&mut self, piece: &mut [u8]) -> Result<usize, BodyFault>
        ensures within { IfOk result
            (λ n. (n ≤ length piece.new) × (n + size self.new ≡ size self.old)) }
        ensures bytes { IfOk result (λ n. moves self.old self.new (take n piece.new)) }
        ensures some { IfOk result (λ n. n ≡ 0 → 0 < length piece.new → size self.old ≡ 0) }
        ensures err { OnErr result (moves self.old self.new [] × (size self.new ≡ size self.old)
            × (0 < size self.old) × is_drained self.new) }
        ensures ended { result ≡ Err BodyFault.Ended → is_ended self.new }
        ensures good { result ≢ Err BodyFault.Device → failed self.new ≡ failed self.old }
        ensures fault { result ≡ Err BodyFault.Device → HasGrown (failed self.old) (failed self.new) };

    /// The number of failed reads so far. At its maximum the count stays.
    fn failures(&self) -> u64
        ensures { result ≡ failed self.now };

    /// Before any read, no byte was returned.
    ghost moves_none: { (body : Self) → moves body body [] };

    /// What successive reads return is what they return together.
    ghost moves_on: { (one two three : Self) (front back : List ℕ)
        → moves one two front → moves two three back → moves one three (front ++ back) };
}
