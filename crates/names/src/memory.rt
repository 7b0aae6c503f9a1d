//! Sources and sinks in memory, for tests: whole, in small pieces, and failing.

ghost use Rattle.std.specs.Prelude.{◌≡◌, ◌-◌, ◌<◌, ◌↔◌, ◌≤◌, ◌+◌, IsTrue, IfOk, OnOk, OnErr, Some, Ok, [], length, max, ⊤};
ghost use Rattle.std.specs.Io.KnownBytes.{Consumes, ReadConsumes, WriteAppends};
ghost use Rattle.std.proofs.KnownBytes.{Consumes-nil, Consumes-trans};
ghost use Rattle.names.specs.Streams.{HasGrown, most_counted};

use crate::streams::one_more;
use crate::{Body, BodyFault, DeviceFault, Sink, Source};
use std::alloc::Global;

/// The bytes of a slice, at most `most` of them per read.
#[derive(Clone, Copy, Debug)]
pub struct SliceSource<'a> {
    left: &'a [u8],
    most: usize,
    pub ghost some: { 0 < most },
    pub ghost fits: { length left.now ≤ most_counted },
}

impl<'a> SliceSource<'a> {
    ghost use Rattle.names.specs.Memory.{slice_left, most_read, size_of_read};

    /// Makes a source of `bytes` that returns at most `most` of them per read. 0 counts as 1.
    pub fn new(bytes: &'a [u8], most: usize) -> Self
        ensures left { slice_left result ≡ bytes.now }
        ensures most { most_read result ≡ max 1 most }
    {
        SliceSource {
            left: bytes,
            most: most.max(1),
        }
    }

    /// The number of bytes that a read returns into a piece of `room` bytes.
    fn size_of_read(&self, room: usize) -> usize
        ensures { result ≡ size_of_read self.now room }
    {
        self.most.min(self.left.len()).min(room)
    }

    /// The bytes that are left.
    pub fn left(&self) -> &'a [u8]
        ensures { result.now ≡ slice_left self.now }
    {
        self.left
    }
}

impl Source for SliceSource<'_> {
    ghost use Rattle.names.specs.Memory.{slice_left, slice_failures, most_read, size_of_read};

    ghost left = { λ s. Some (slice_left s) };

    ghost budget = { λ s. length (slice_left s) };

    ghost failed = { λ s. slice_failures s };

    ghost bounded = { λ s. s.fits };

    fn read(&mut self, piece: &mut [u8]) -> Result<usize, DeviceFault>
        ensures within { IfOk result (λ n. n ≤ length piece.new) }
        ensures bytes { ReadConsumes (Some (slice_left self.old)) (Some (slice_left self.new)) result piece.new }
        ensures budget { IfOk result
            (λ n. n + length (slice_left self.new) ≤ length (slice_left self.old)) }
        ensures budget_err { OnErr result (length (slice_left self.new) ≤ length (slice_left self.old)) }
        ensures good { OnOk result (slice_failures self.new ≡ slice_failures self.old) }
        ensures fault { OnErr result (HasGrown (slice_failures self.old) (slice_failures self.new)) }
        ensures size { result ≡ Ok (size_of_read self.old (length piece.new)) }
        ensures most { most_read self.new ≡ most_read self.old }
    {
        let size = self.size_of_read(piece.len());
        let (front, left) = self.left.split_at(size);
        piece[..size].copy_from_slice(front);
        self.left = left;
        Ok(size)
    }

    fn failures(&self) -> u64 {
        0
    }
}

/// The bytes that are left, as a body of that size.
impl Body for SliceSource<'_> {
    ghost use Rattle.names.specs.Memory.{slice_left, slice_failures};

    ghost size = { λ s. length (slice_left s) };

    ghost failed = { λ s. slice_failures s };

    ghost moves = { λ old new bytes. Consumes (Some (slice_left old)) (Some (slice_left new)) bytes };

    ghost is_drained = { λ s. ⊤ };

    ghost is_ended = { λ s. ⊤ };

    fn left(&self) -> u64 {
        self.left.len() as u64
    }

    fn piece(&mut self, piece: &mut [u8]) -> Result<usize, BodyFault> {
        match self.read(piece) {
            Ok(size) => Ok(size),
            Err(_) => Err(BodyFault::Device),
        }
    }

    fn failures(&self) -> u64 {
        0
    }

    ghost moves_none = { λ s. Consumes-nil (Some (slice_left s)) };

    ghost moves_on = { λ one two three front back p q. Consumes-trans
        (Some (slice_left one)) (Some (slice_left two)) (Some (slice_left three)) front back p q };
}

/// A vector that takes at most `most` bytes per write. A write fails if memory runs out.
#[derive(Debug, Drop)]
pub struct VecSink {
    taken: Vec<u8>,
    most: usize,
    failures: u64,
    pub ghost some: { 0 < most },
}

impl VecSink {
    ghost use Rattle.names.specs.Memory.{vec_taken, vec_failures, most_written, size_of_write};

    /// Makes an empty sink that takes at most `most` bytes per write. 0 counts as 1.
    pub fn new(alloc: Global, most: usize) -> Self
        ensures taken { vec_taken result ≡ [] }
        ensures failures { vec_failures result ≡ 0 }
        ensures most { most_written result ≡ max 1 most }
    {
        VecSink {
            taken: Vec::new(alloc),
            most: most.max(1),
            failures: 0,
        }
    }

    /// The number of bytes that a write takes of `offered` bytes.
    fn size_of_write(&self, offered: usize) -> usize
        ensures { result ≡ size_of_write self.now offered }
    {
        self.most.min(offered)
    }

    /// The bytes taken so far.
    pub fn taken(&self) -> &[u8]
        ensures { result.now ≡ vec_taken self.now }
    {
        &self.taken
    }
}

impl Sink for VecSink {
    ghost use Rattle.names.specs.Memory.{vec_taken, vec_failures, most_written, size_of_write};

    ghost taken = { λ k. Some (vec_taken k) };

    ghost failed = { λ k. vec_failures k };

    fn write(&mut self, piece: &[u8]) -> Result<usize, DeviceFault>
        ensures within { IfOk result (λ n. n ≤ length piece.now) }
        ensures some { IfOk result (λ n. 0 < length piece.now → 0 < n) }
        ensures bytes { WriteAppends (Some (vec_taken self.old)) (Some (vec_taken self.new)) result piece.now }
        ensures good { OnOk result (vec_failures self.new ≡ vec_failures self.old) }
        ensures fault { OnErr result (HasGrown (vec_failures self.old) (vec_failures self.new)) }
        ensures size { IfOk result (λ n. n ≡ size_of_write self.old (length piece.now)) }
        ensures most { most_written self.new ≡ most_written self.old }
    {
        let size = self.size_of_write(piece.len());
        match self.taken.extend_from_slice(&piece[..size]) {
            Ok(()) => Ok(size),
            Err(_) => {
                self.failures = one_more(self.failures);
                Err(DeviceFault)
            }
        }
    }

    fn failures(&self) -> u64 {
        self.failures
    }
}

/// Test double: forwards the first `calls` calls, then always fails.
#[derive(Debug, Drop)]
pub struct FailAfter<T> {
    inner: T,
    calls: u64,
    failures: u64,
}

impl<T> FailAfter<T> {
    ghost use Rattle.names.specs.Memory.{failing, calls_left, failures_so_far};

    /// Forwards the first `calls` calls to `inner`; each later call fails.
    pub fn new(inner: T, calls: u64) -> Self
        ensures inner { failing result ≡ inner }
        ensures calls { calls_left result ≡ calls }
        ensures failures { failures_so_far result ≡ 0 }
    {
        FailAfter {
            inner,
            calls,
            failures: 0,
        }
    }

    /// Whether this call reaches the device.
    fn reaches_device(&mut self) -> bool
        ensures reaches { IsTrue result ↔ (0 < self.old.calls) }
        ensures uses { self.new ≡ record self.old { calls = self.old.calls - 1 } }
    {
        let reaches = self.calls > 0;
        self.calls = self.calls.saturating_sub(1);
        reaches
    }

    /// Returns the source or the sink inside.
    pub fn into_inner(self) -> T
        ensures { result ≡ failing self }
    {
        let FailAfter { inner, .. } = self;
        inner
    }
}

impl<S: Source> Source for FailAfter<S> {
    ghost use Rattle.names.specs.Memory.{failing, failures_so_far};

    ghost left = { λ s. S.left (failing s) };

    ghost reference = { λ s. S.reference (failing s) };

    ghost budget = { λ s. S.budget (failing s) };

    ghost failed = { λ s. failures_so_far s };

    ghost bounded = { λ s. S.bounded (failing s) };

    fn read(&mut self, piece: &mut [u8]) -> Result<usize, DeviceFault> {
        if self.reaches_device()
            && let Ok(size) = self.inner.read(piece)
        {
            return Ok(size);
        }
        self.failures = one_more(self.failures);
        Err(DeviceFault)
    }

    fn failures(&self) -> u64 {
        self.failures
    }
}

impl<K: Sink> Sink for FailAfter<K> {
    ghost use Rattle.names.specs.Memory.{failing, failures_so_far};

    ghost taken = { λ k. K.taken (failing k) };

    ghost failed = { λ k. failures_so_far k };

    fn write(&mut self, piece: &[u8]) -> Result<usize, DeviceFault> {
        if self.reaches_device()
            && let Ok(size) = self.inner.write(piece)
        {
            return Ok(size);
        }
        self.failures = one_more(self.failures);
        Err(DeviceFault)
    }

    fn failures(&self) -> u64 {
        self.failures
    }
}
