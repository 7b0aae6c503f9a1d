//! The bytes that a connection read and did not hand out yet.

ghost use Rattle.std.specs.Prelude.{◌≡◌, ℕ, ◌+◌, ◌-◌, ◌<◌, ◌≤◌, List, [], ◌++◌, length, take, drop, IfOk, OnOk, OnErr, true, false};
ghost use Rattle.std.specs.Io.KnownBytes.{Consumes, IsAtEnd, Keeps};
ghost use Rattle.names.specs.Streams.{HasGrown};
ghost use Rattle.wire.specs.declared.cut.TheConstants.{HEAD_LIMIT};

use crate::cut::HEAD_LIMIT;
use names::{DeviceFault, Source};
use std::alloc::{AllocError, Global};

/// Bytes of a source: those of the message so far, and those after them.
///
/// The first `end` of `bytes` were read since the message began; the first `at` of those were handed
/// out. The buffer has room for the longest head.
#[derive(Drop)]
pub(crate) struct Buffer {
    bytes: Vec<u8>,
    at: usize,
    end: usize,
    ghost size: { length bytes.items ≡ HEAD_LIMIT },
    ghost order: { at ≤ end },
    ghost fits: { end ≤ HEAD_LIMIT },
}

impl Buffer {
    ghost use Rattle.wire.specs.Buffers.{front, unused};

    /// Makes an empty buffer.
    pub(crate) fn new(alloc: Global) -> Result<Buffer, AllocError>
        ensures { IfOk result (λ b. (front b ≡ []) × (b.at ≡ 0)) }
    {
        Ok(Buffer {
            bytes: vec![in alloc; 0; HEAD_LIMIT]?,
            at: 0,
            end: 0,
        })
    }

    /// Returns all bytes that were read since the message began.
    pub(crate) fn front(&self) -> &[u8]
        ensures { result.now ≡ front self.now }
    {
        front_part(&self.bytes, self.end)
    }

    /// Returns the bytes that were not handed out.
    fn unused(&self) -> &[u8]
        ensures { result.now ≡ unused self.now }
    {
        part(&self.bytes, self.at, self.end)
    }

    /// Whether there are bytes that were not handed out.
    pub(crate) fn has_unused(&self) -> bool
        ensures some { result ≡ true → 0 < length (unused self.now) }
        ensures none { result ≡ false → unused self.now ≡ [] }
    {
        !self.unused().is_empty()
    }

    /// Begins a message: removes the bytes that were handed out.
    pub(crate) fn begin(&mut self)
        ensures front { front self.new ≡ unused self.old }
        ensures at { self.new.at ≡ 0 }
    {
        move_to_front(&mut self.bytes, self.at, self.end);
        self.end -= self.at;
        self.at = 0;
    }

    /// Counts the first bytes that were not handed out as handed out.
    pub(crate) fn skip(&mut self, count: usize)
        requires { count ≤ length (unused self.old) }
        ensures front { front self.new ≡ front self.old }
        ensures at { self.new.at ≡ self.old.at + count }
    {
        self.at += count;
    }

    /// Hands out the first bytes into the front of `piece`, at most `size`, and returns how many.
    pub(crate) fn hand_out(&mut self, piece: &mut [u8], size: usize) -> usize
        requires size { size ≤ length piece.old }
        requires some { (0 < size) × (0 < length (unused self.old)) }
        ensures within { (0 < result) × (result ≤ size) }
        ensures bytes { unused self.old ≡ take result piece.new ++ unused self.new }
        ensures front { front self.new ≡ front self.old }
    {
        let count = copy_front(self.unused(), &mut piece[..size]);
        self.skip(count);
        count
    }

    /// Reads some bytes after those that were read, and returns how many. 0 is the end of the source, if
    /// the buffer has room.
    pub(crate) fn fill<S: Source>(&mut self, source: &mut S) -> Result<usize, DeviceFault>
        ensures at { self.new.at ≡ self.old.at }
        ensures read { IfOk result (λ n. (more : List ℕ) × (front self.new ≡ front self.old ++ more)
            × (length more ≡ n) × Consumes (S.left source.old) (S.left source.new) more) }
        ensures ended { IfOk result (λ n. n ≡ 0 → length (front self.old) < HEAD_LIMIT
            → IsAtEnd (S.left source.new)) }
        ensures kept { OnErr result ((front self.new ≡ front self.old)
            × Keeps (S.left source.old) (S.left source.new)) }
        ensures same_reference { S.reference source.new ≡ S.reference source.old }
        ensures budget { IfOk result (λ n. n + S.budget source.new ≤ S.budget source.old) }
        ensures budget_err { OnErr result (S.budget source.new ≤ S.budget source.old) }
        ensures good { OnOk result (S.failed source.new ≡ S.failed source.old) }
        ensures fault { OnErr result (HasGrown (S.failed source.old) (S.failed source.new)) }
    {
        let count = read_after(&mut self.bytes, self.end, source)?;
        self.end += count;
        Ok(count)
    }
}

/// The first `end` bytes.
fn front_part(bytes: &[u8], end: usize) -> &[u8]
    requires { end ≤ length bytes.now }
    ensures { result.now ≡ take end bytes.now }
{
    bytes.split_at(end).0
}

/// The bytes from `at` to `end`.
fn part(bytes: &[u8], at: usize, end: usize) -> &[u8]
    requires order { at ≤ end }
    requires fits { end ≤ length bytes.now }
    ensures { result.now ≡ drop at (take end bytes.now) }
{
    front_part(bytes, end).split_at(at).1
}

/// Moves the bytes from `at` to `end` to the front.
fn move_to_front(bytes: &mut [u8], at: usize, end: usize)
    requires order { at ≤ end }
    requires fits { end ≤ length bytes.old }
    ensures { take (end - at) bytes.new ≡ drop at (take end bytes.old) }
{
    bytes.copy_within(at..end, 0);
}

/// Copies the first bytes of one slice to the front of another, and returns how many.
fn copy_front(from: &[u8], to: &mut [u8]) -> usize
    ensures within { (result ≤ length from.now) × (result ≤ length to.new) }
    ensures bytes { take result to.new ≡ take result from.now }
    ensures some { 0 < length from.now → 0 < length to.old → 0 < result }
{
    let size = if from.len() < to.len() {
        from.len()
    } else {
        to.len()
    };
    to[..size].copy_from_slice(front_part(from, size));
    size
}

/// Reads some bytes to the position `end`, and returns how many.
fn read_after<S: Source>(bytes: &mut [u8], end: usize, source: &mut S) -> Result<usize, DeviceFault>
    requires { end ≤ length bytes.old }
    ensures front { take end bytes.new ≡ take end bytes.old }
    ensures read { IfOk result (λ n. (more : List ℕ) × (end + n ≤ length bytes.new)
        × (take (end + n) bytes.new ≡ take end bytes.old ++ more) × (length more ≡ n)
        × Consumes (S.left source.old) (S.left source.new) more) }
    ensures ended { IfOk result (λ n. n ≡ 0 → end < length bytes.old → IsAtEnd (S.left source.new)) }
    ensures kept { OnErr result (Keeps (S.left source.old) (S.left source.new)) }
    ensures same_reference { S.reference source.new ≡ S.reference source.old }
    ensures budget { IfOk result (λ n. n + S.budget source.new ≤ S.budget source.old) }
    ensures budget_err { OnErr result (S.budget source.new ≤ S.budget source.old) }
    ensures good { OnOk result (S.failed source.new ≡ S.failed source.old) }
    ensures fault { OnErr result (HasGrown (S.failed source.old) (S.failed source.new)) }
{
    match source.read(&mut bytes[end..]) {
        Ok(count) => Ok(count),
        Err(fault) => Err(fault),
    }
}

/// Reads some bytes into the front of `piece`, at most `size`, and returns how many.
pub(crate) fn read_into<S: Source>(
    source: &mut S,
    piece: &mut [u8],
    size: usize,
) -> Result<usize, DeviceFault>
    requires { size ≤ length piece.old }
    ensures within { IfOk result (λ n. n ≤ size) }
    ensures bytes { IfOk result (λ n. Consumes (S.left source.old) (S.left source.new)
        (take n piece.new)) }
    ensures ended { IfOk result (λ n. n ≡ 0 → 0 < size → IsAtEnd (S.left source.new)) }
    ensures kept { OnErr result (Keeps (S.left source.old) (S.left source.new)) }
    ensures same_reference { S.reference source.new ≡ S.reference source.old }
    ensures budget { IfOk result (λ n. n + S.budget source.new ≤ S.budget source.old) }
    ensures budget_err { OnErr result (S.budget source.new ≤ S.budget source.old) }
    ensures good { OnOk result (S.failed source.new ≡ S.failed source.old) }
    ensures fault { OnErr result (HasGrown (S.failed source.old) (S.failed source.new)) }
{
    match source.read(&mut piece[..size]) {
        Ok(count) => Ok(count),
        Err(fault) => Err(fault),
    }
}
